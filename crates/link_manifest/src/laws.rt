//! Worked examples of the definitions, which the checker computes.

ghost use Rattle.std.specs.Prelude.{◌≡◌, [], ◌∷◌, None, Some, codes, false, true};
ghost use Rattle.link_manifest.specs.FaultText.{fault_text};
ghost use Rattle.link_manifest.specs.Examples.{global_symbol, regular_object, of_batches, of_objects, of_options, of_claim, of_libraries, elf_manifest, mach_manifest};
ghost use Rattle.link_manifest.specs.Manifest.{manifest_of};
ghost use Rattle.link_manifest.specs.Redirects.{redirect_of};
ghost use Rattle.link_manifest.specs.Symbols.{null_entry};
ghost use Rattle.link_manifest.specs.declared.fault.Step.TheVariants.{Key, Item};
ghost use Rattle.link_manifest.specs.declared.fault.Kind.TheVariants as kind;
ghost use Rattle.link_manifest.specs.declared.fault.ManifestFault.{ManifestFault};
ghost use Rattle.link_input.specs.Defaults.{default_options};
ghost use Rattle.link_script_syntax.specs.declared.profile.ScriptProfile.TheVariants as profile;
ghost use Rattle.link_input.specs.declared.internal_symbols.InternalSymDefInfo.{InternalSymDefInfo};
ghost use Rattle.link_input.specs.declared.internal_symbols.RedirectKind.TheVariants as redirect;
ghost use Rattle.link_input.specs.declared.internal_symbols.SymbolPlacement.TheVariants.{TlsEnd, LoadBaseAddress};
ghost use Rattle.link_input.specs.declared.options.OutputKind.TheVariants.{SharedObject};
ghost use Rattle.link_input.specs.declared.options.Options.{Options};
ghost use Rattle.link_input.specs.declared.symbol_entry.SymbolEntry.{SymbolEntry};
ghost use Rattle.link_input.specs.declared.symbol_entry.SymbolBinding.TheVariants as binding;
ghost use Rattle.link_input.specs.declared.symbol_entry.SymbolKind.TheVariants as symbol;
ghost use Rattle.link_input.specs.declared.symbol_entry.Place.TheVariants.{Section, Undefined, Absolute, Common};
ghost use Rattle.link_input.specs.declared.table_error.TableError.TheVariants.{SectionRange};
ghost use Rattle.link_input.specs.ObjectFile.{ObjectFile};
ghost use Rattle.link_flags.specs.declared.visibility.Visibility.TheVariants as visibility;

use crate::fault::Problem;

/// How faults are written: of the root, of a value, and of a table.
pub fn written_faults()
    ensures root { fault_text (record { path = []; problem = Problem.NotJson }) ≡ codes "not JSON" }
    ensures value { fault_text (record { path = Key (codes "objects") ∷ Item 10 ∷ Key (codes "name") ∷ []; problem = Problem.Missing }) ≡ codes "objects[10].name: missing" }
    ensures table { fault_text (record { path = Key (codes "objects") ∷ Item 0 ∷ []; problem = Problem.Table (SectionRange 12) }) ≡ codes "objects[0]: symbol 12 has no such section" }
{}

/// Which manifest some bytes are: the empty one, one with a symbol, one for a platform like Mach-O, which has no null
/// entry, and one with a name in hexadecimal digits.
pub fn read_objects()
    ensures empty { manifest_of (codes "{}") ≡ Ok (elf_manifest (of_options default_options)) }
    ensures symbol { manifest_of (codes "{\"objects\":[{\"name\":\"m\",\"sections\":2,\"symbols\":[{\"name\":\"f\",\"place\":1}]}]}")
        ≡ Ok (elf_manifest (of_objects default_options (regular_object (codes "m") 2 (null_entry ∷ global_symbol (codes "f") (Section 1) ∷ []) [] ∷ []))) }
    ensures no_null_entry { manifest_of (codes "{\"platform\":\"macho\",\"objects\":[{\"name\":\"m\",\"symbols\":[{\"name\":\"f\",\"place\":\"undefined\"}]}]}")
        ≡ Ok (mach_manifest (of_objects default_options (regular_object (codes "m") 0 (global_symbol (codes "f") Undefined ∷ []) [] ∷ []))) }
    ensures hex_name { manifest_of (codes "{\"objects\":[{\"name\":\"m\",\"symbols\":[{\"name\":{\"hex\":\"fF0a\"},\"place\":\"absolute\"}]}]}")
        ≡ Ok (elf_manifest (of_objects default_options (regular_object (codes "m") 0 (null_entry ∷ global_symbol (255 ∷ 10 ∷ []) Absolute ∷ []) [] ∷ []))) }
{}

/// What each key of an object and of a symbol gives.
pub fn read_object_keys()
    ensures symbol { manifest_of (codes "{\"platform\":\"macho\",\"objects\":[{\"name\":\"m\",\"symbols\":[{\"name\":\"f\",\"place\":\"common\",\"bind\":\"weak\",\"vis\":\"hidden\",\"kind\":\"tls\",\"size\":8,\"version\":\"v\",\"default\":false}]}]}")
        ≡ Ok (mach_manifest (of_objects default_options (regular_object (codes "m") 0 (record {
          name = codes "f";
          version = Some (codes "v");
          is_default = false;
          binding = binding.Weak;
          visibility = visibility.Hidden;
          kind = symbol.Tls;
          size = 8;
          place = Common;
        } ∷ []) [] ∷ []))) }
    ensures group { manifest_of (codes "{\"objects\":[{\"name\":\"m\",\"sections\":4,\"groups\":[{\"header\":1,\"signature\":0,\"comdat\":false,\"members\":[2,3]}]}]}")
        ≡ Ok (elf_manifest (of_objects default_options (regular_object (codes "m") 4 (null_entry ∷ [])
        (record { index = 1; signature_symbol = 0; is_comdat = false; members = 2 ∷ 3 ∷ [] } ∷ []) ∷ []))) }
    ensures shared { manifest_of (codes "{\"platform\":\"macho\",\"objects\":[{\"name\":\"m\",\"dynamic\":true,\"as_needed\":true,\"lib_name\":\"l\"}]}")
        ≡ Ok (mach_manifest (of_objects default_options (record {
          input = codes "m";
          object = record { is_dynamic = true; lib_name = codes "l"; sections = 0; symbols = []; groups = []; section_references = []; retained_sections = [] };
          modifiers = record { archive = false; whole_archive = false; as_needed = true };
        } ∷ []))) }
    ensures member { manifest_of (codes "{\"platform\":\"macho\",\"objects\":[{\"name\":\"m\",\"archive\":true,\"whole_archive\":true}]}")
        ≡ Ok (mach_manifest (of_objects default_options (record {
          input = codes "m";
          object = record { is_dynamic = false; lib_name = codes "m"; sections = 0; symbols = []; groups = []; section_references = []; retained_sections = [] };
          modifiers = record { archive = true; whole_archive = true; as_needed = false };
        } ∷ []))) }
{}

/// What each option of the root gives.
pub fn read_options()
    ensures group_size { manifest_of (codes "{\"files_per_group\":1,\"output\":\"shared\",\"allow_multiple\":true}")
        ≡ Ok (elf_manifest (of_options (record default_options { files_per_group = 1; output = SharedObject; allow_multiple = true }))) }
    ensures entries { manifest_of (codes "{\"entry\":\"e\",\"default_entry\":null}") ≡ Ok (elf_manifest (of_options (record default_options { entry = Some (codes "e") }))) }
    ensures default_entry { manifest_of (codes "{\"entry\":null,\"default_entry\":\"d\"}")
        ≡ Ok (elf_manifest (of_options (record default_options { default_entry = Some (codes "d") }))) }
    ensures names { manifest_of (codes "{\"wrap\":[\"w\"],\"force_undefined\":[\"u\"],\"force_export\":[\"x\"],\"custom_sections\":[\"c\"]}")
        ≡ Ok (elf_manifest (of_options (record default_options {
          wrap = codes "w" ∷ [];
          force_undefined = codes "u" ∷ [];
          force_export = codes "x" ∷ [];
          custom_sections = codes "c" ∷ [];
        }))) }
    ensures defsym { manifest_of (codes "{\"defsym\":[{\"name\":\"a\",\"targets\":[\"b\",\"c\"]}]}")
        ≡ Ok (elf_manifest (of_options (record default_options { defsym = redirect_of redirect.DefSym (codes "a") (codes "b" ∷ codes "c" ∷ []) false ∷ [] }))) }
    ensures linker_symbols { manifest_of (codes "{\"linker_symbols\":[{\"name\":\"t\",\"placement\":\"tls_end\",\"section\":3,\"hidden\":true},{\"name\":\"b\",\"placement\":\"load_base\"}]}")
        ≡ Ok (elf_manifest (of_options (record default_options {
          linker_symbols = record { placement = TlsEnd 3; name = codes "t"; hidden = true } ∷ record { placement = LoadBaseAddress; name = codes "b"; hidden = false } ∷ [];
        }))) }
{}

/// What the keys behind the files give, and which of several faults is told: that of the files.
pub fn read_later_options()
    ensures keys { manifest_of (codes "{\"script_profile\":2,\"soname\":\"l\"}")
        ≡ Ok (elf_manifest (of_options (record default_options { script_profile = profile.Lenient; soname = Some (codes "l") }))) }
    ensures first_profile { manifest_of (codes "{\"script_profile\":1,\"soname\":null}") ≡ Ok (elf_manifest (of_options default_options)) }
    ensures no_profile { manifest_of (codes "{\"script_profile\":3}") ≡ Err (record { path = Key (codes "script_profile") ∷ []; problem = Problem.Expected kind.Number }) }
    ensures files_first { manifest_of (codes "{\"soname\":1,\"script_profile\":0,\"batches\":2}") ≡ Err (record { path = Key (codes "batches") ∷ []; problem = Problem.Expected kind.List }) }
    ensures profile_first { manifest_of (codes "{\"soname\":1,\"script_profile\":0}") ≡ Err (record { path = Key (codes "script_profile") ∷ []; problem = Problem.Expected kind.Number }) }
    ensures soname { manifest_of (codes "{\"soname\":1}") ≡ Err (record { path = Key (codes "soname") ∷ []; problem = Problem.Expected kind.Bytes }) }
{}

/// What a claim gives, which has all its keys, and which of several faults is told: a claim's come between those of the keys beside it.
pub fn read_claims()
    ensures none { manifest_of (codes "{\"claim\":null}") ≡ Ok (elf_manifest (of_options default_options)) }
    ensures claim { manifest_of (codes "{\"claim\":{\"loaded\":[{\"object\":0,\"rank\":0,\"by\":null},{\"object\":2,\"rank\":1,\"by\":7}],\"kept\":[{\"object\":2,\"group\":1}],\"table\":[0,5]}}")
        ≡ Ok (elf_manifest (of_claim default_options (record {
          loaded = record { object = 0; rank = 0; by = None } ∷ record { object = 2; rank = 1; by = Some 7 } ∷ [];
          kept = record { object = 2; group = 1 } ∷ [];
          table = 0 ∷ 5 ∷ [];
        }))) }
    ensures macho { manifest_of (codes "{\"platform\":\"macho\",\"claim\":{\"loaded\":[],\"kept\":[],\"table\":[]}}")
        ≡ Ok (mach_manifest (of_claim default_options (record { loaded = []; kept = []; table = [] }))) }
    ensures missing { manifest_of (codes "{\"claim\":{\"table\":[],\"loaded\":[{\"object\":0,\"rank\":0}]}}")
        ≡ Err (record { path = Key (codes "claim") ∷ Key (codes "loaded") ∷ Item 0 ∷ Key (codes "by") ∷ []; problem = Problem.Missing }) }
    ensures group { manifest_of (codes "{\"claim\":{\"table\":[],\"kept\":[{\"object\":0,\"group\":-1}],\"loaded\":[]}}")
        ≡ Err (record { path = Key (codes "claim") ∷ Key (codes "kept") ∷ Item 0 ∷ Key (codes "group") ∷ []; problem = Problem.Expected kind.Number }) }
    ensures behind_profile { manifest_of (codes "{\"claim\":1,\"script_profile\":0}") ≡ Err (record { path = Key (codes "script_profile") ∷ []; problem = Problem.Expected kind.Number }) }
    ensures before_soname { manifest_of (codes "{\"soname\":1,\"claim\":[]}") ≡ Err (record { path = Key (codes "claim") ∷ []; problem = Problem.Expected kind.Object }) }
{}

/// What texts, linker scripts and stub libraries give.
pub fn read_libraries()
    ensures texts { manifest_of (codes "{\"version_script\":\"v\",\"export_list\":null}")
        ≡ Ok (elf_manifest (record (of_options default_options) { texts = record { version_script = Some (codes "v"); export_list = None } })) }
    ensures export_list { manifest_of (codes "{\"export_list\":\"x\"}")
        ≡ Ok (elf_manifest (record (of_options default_options) { texts = record { version_script = None; export_list = Some (codes "x") } })) }
    ensures libraries { manifest_of (codes "{\"stubs\":[{\"name\":\"l\",\"strong\":[\"s\"],\"weak\":[\"w\"]}],\"scripts\":[{\"name\":\"n\",\"entry\":\"e\",\"version\":\"v\",\"symbols\":[{\"name\":\"a\",\"targets\":[\"b\"],\"hidden\":true},{\"name\":\"p\",\"provide\":true}]}]}")
        ≡ Ok (elf_manifest (of_libraries
        (record {
          input = codes "n";
          entry = Some (codes "e");
          version = Some (codes "v");
          symbol_defs = redirect_of redirect.Script (codes "a") (codes "b" ∷ []) true ∷ redirect_of redirect.Provide (codes "p") [] false ∷ [];
        })
        (record { input = codes "l"; strong = codes "s" ∷ []; weak = codes "w" ∷ [] }))) }
{}

/// What batches behind the first one give.
pub fn read_batches()
    ensures batches { manifest_of (codes "{\"batches\":[{},{\"stubs\":[{\"name\":\"l\"}],\"objects\":[{\"name\":\"m\"}]}]}")
        ≡ Ok (elf_manifest (of_batches (record { objects = []; scripts = []; stubs = [] }
        ∷ record { objects = regular_object (codes "m") 0 (null_entry ∷ []) [] ∷ []; scripts = []; stubs = record { input = codes "l"; strong = []; weak = [] } ∷ [] } ∷ []))) }
    ensures unknown { manifest_of (codes "{\"batches\":[{\"wrap\":[]}]}") ≡ Err (record { path = Key (codes "batches") ∷ Item 0 ∷ Key (codes "wrap") ∷ []; problem = Problem.UnknownKey }) }
    ensures table { manifest_of (codes "{\"batches\":[{},{\"objects\":[{\"name\":\"n\",\"symbols\":[{\"name\":\"f\",\"place\":0}]}]}]}")
        ≡ Err (record { path = Key (codes "batches") ∷ Item 1 ∷ Key (codes "objects") ∷ Item 0 ∷ []; problem = Problem.Table (SectionRange 1) }) }
{}

/// What is told of bytes that are no manifest: an unknown key, numbers out of range, hexadecimal
/// digits that aren't pairs, a second key beside them, words that are none, and null.
pub fn refused_values()
    ensures unknown { manifest_of (codes "{\"objets\":[]}") ≡ Err (record { path = Key (codes "objets") ∷ []; problem = Problem.UnknownKey }) }
    ensures none_a_group { manifest_of (codes "{\"files_per_group\":0}") ≡ Err (record { path = Key (codes "files_per_group") ∷ []; problem = Problem.Expected kind.Number }) }
    ensures too_many_a_group { manifest_of (codes "{\"files_per_group\":257}") ≡ Err (record { path = Key (codes "files_per_group") ∷ []; problem = Problem.Expected kind.Number }) }
    ensures odd_digits { manifest_of (codes "{\"entry\":{\"hex\":\"666\"}}") ≡ Err (record { path = Key (codes "entry") ∷ []; problem = Problem.Expected kind.Bytes }) }
    ensures second_key { manifest_of (codes "{\"entry\":{\"hex\":\"66\",\"text\":\"f\"}}") ≡ Err (record { path = Key (codes "entry") ∷ []; problem = Problem.Expected kind.Bytes }) }
    ensures no_word { manifest_of (codes "{\"platform\":\"coff\"}") ≡ Err (record { path = Key (codes "platform") ∷ []; problem = Problem.Expected kind.Word }) }
    ensures no_place { manifest_of (codes "{\"objects\":[{\"name\":\"m\",\"symbols\":[{\"name\":\"f\",\"place\":\"nowhere\"}]}]}")
        ≡ Err (record { path = Key (codes "objects") ∷ Item 0 ∷ Key (codes "symbols") ∷ Item 0 ∷ Key (codes "place") ∷ []; problem = Problem.Expected kind.Place }) }
    ensures no_null { manifest_of (codes "{\"wrap\":[null]}") ≡ Err (record { path = Key (codes "wrap") ∷ Item 0 ∷ []; problem = Problem.Expected kind.Bytes }) }
{}

/// Which of several faults is told: the walk of all comes first, then custom sections that are repeated, and then the tables.
pub fn refused_wholes()
    ensures walk { manifest_of (codes "{\"custom_sections\":[\"a\",\"a\"],\"stubs\":[{}]}")
        ≡ Err (record { path = Key (codes "stubs") ∷ Item 0 ∷ Key (codes "name") ∷ []; problem = Problem.Missing }) }
    ensures repeated { manifest_of (codes "{\"custom_sections\":[\"a\",\"b\",\"b\",\"a\"],\"objects\":[{\"name\":\"n\",\"symbols\":[{\"name\":\"f\",\"place\":0}]}]}")
        ≡ Err (record { path = Key (codes "custom_sections") ∷ Item 2 ∷ []; problem = Problem.Repeated }) }
    ensures table { manifest_of (codes "{\"objects\":[{\"name\":\"m\"},{\"name\":\"n\",\"symbols\":[{\"name\":\"f\",\"place\":0}]}]}")
        ≡ Err (record { path = Key (codes "objects") ∷ Item 1 ∷ []; problem = Problem.Table (SectionRange 1) }) }
{}
