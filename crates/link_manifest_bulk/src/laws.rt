//! Laws of a made-up link. Each is a function that does nothing: its contract is the law.

ghost use Rattle.std.specs.Prelude.{◌≡◌, ◌≤◌, ℕ, true, None};
ghost use Rattle.link_input.specs.Checks.{first_fault};
ghost use Rattle.link_rules.specs.declared.refusal.LinkError.{LinkError};
ghost use Rattle.link_rules.specs.Answer.{IsRefused};
ghost use Rattle.link_manifest_bulk.specs.Chain.{chain_member_table, chain_start_table};
ghost use Rattle.link_manifest_bulk.specs.Tables.{main_table, member_table};
ghost use Rattle.link_manifest_bulk.specs.World.{bulk_world};

/// Every table passes the checks of a platform that has a null entry.
pub fn bulk_tables_pass()
    ensures main { first_fault true main_table ≡ None }
    ensures members { (members i : ℕ) → first_fault true (member_table members i) ≡ None }
{}

/// So does every table of a chain.
pub fn chain_tables_pass()
    ensures start { first_fault true chain_start_table ≡ None }
    ensures members { (members i : ℕ) → first_fault true (chain_member_table members i) ≡ None }
{}

/// A made-up link is not refused: its files are within all limits, and no two definitions of a name are left that clash.
pub fn a_made_up_link_is_not_refused()
    ensures { (members : ℕ) (e : LinkError) → 1 ≤ members → members ≤ 100000 → IsRefused (bulk_world members) e → ⊥ }
{}
