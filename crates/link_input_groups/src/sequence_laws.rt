//! Laws about the ids of the files of a link. Each is a function that does nothing: its contract is the law.

ghost use Rattle.std.specs.Prelude.{◌≡◌, ◌+◌, ◌++◌, ℕ, List, Some, length, slice_get, take};
ghost use Rattle.link_input.specs.declared.options.Options.{Options};
ghost use Rattle.link_input.specs.InputFiles.{Batch, InputFile, input_files, section_count, symbol_count};
ghost use Rattle.link_input.specs.Limits.{total};
ghost use Rattle.link_input.specs.SequencedFiles.{SequencedFile, sequenced, sequenced_files};
ghost use Rattle.link_input.specs.Symbols.{file_symbols, symbols_of};

/// The files that have ids are the files of the link, in the same order, and their ids are those of the list of all symbols,
/// where a symbol's id is its place: the ids of a file begin with the number of symbols of the files before it, and it has one for
/// each of its symbols.
pub fn symbols_are_numbered()
    ensures files { (options : Options) (batches : List Batch) → length (sequenced_files options batches) ≡ length (input_files options batches) }
    ensures file { (options : Options) (batches : List Batch) (k : ℕ) (f : SequencedFile) → slice_get (sequenced_files options batches) k ≡ Some f
        → slice_get (input_files options batches) k ≡ Some f.file }
    ensures start { (options : Options) (batches : List Batch) (k : ℕ) (f : SequencedFile) → slice_get (sequenced_files options batches) k ≡ Some f
        → f.symbols.start ≡ length (symbols_of 0 (take k (input_files options batches))) }
    ensures len { (options : Options) (batches : List Batch) (k : ℕ) (f : SequencedFile) → slice_get (sequenced_files options batches) k ≡ Some f
        → (n : ℕ) → f.symbols.len ≡ length (file_symbols n f.file) }
{}

/// The ids of files run on behind those of the files before them.
pub fn ids_run_on()
    ensures { (symbols sections : ℕ) (xs ys : List InputFile) → sequenced symbols sections (xs ++ ys)
        ≡ sequenced symbols sections xs ++ sequenced (symbols + total symbol_count xs) (sections + total section_count xs) ys }
{}
