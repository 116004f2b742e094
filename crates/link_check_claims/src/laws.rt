//! Laws about claims.

ghost use Rattle.std.specs.Prelude.{◌≡◌, Bool, List, [], map};
ghost use Rattle.link_check_claims.specs.declared.claim.Claim.{Claim};
ghost use Rattle.link_check_claims.specs.Claims.{ClaimHolds, claimed_group, claimed_marks};
ghost use Rattle.link_rules.specs.Answer.{IsLinked};
ghost use Rattle.link_rules.specs.Linked.{Linked};
ghost use Rattle.link_rules.specs.Loading.{IsLoaded};
ghost use Rattle.link_rules.specs.World.{World, first_stage};

/// A claim that holds is the link: it lists the objects that are loaded, and where the link of a world without further batches is not refused, the
/// kept groups and the table are those of its answer.
pub fn a_claim_that_holds_is_the_link()
    ensures loaded { (world : World) (claim : Claim) (marks : List Bool) → ClaimHolds world claim → IsLoaded (first_stage world) marks
        → claimed_marks (first_stage world) claim.loaded ≡ marks }
    ensures kept { (world : World) (claim : Claim) (linked : Linked) → world.later ≡ [] → ClaimHolds world claim → IsLinked world linked
        → claim.kept ≡ map claimed_group linked.kept }
    ensures table { (world : World) (claim : Claim) (linked : Linked) → world.later ≡ [] → ClaimHolds world claim → IsLinked world linked
        → claim.table ≡ linked.table }
{}

/// For each world some claim holds: that of the loaded objects with their levels, the kept groups and the table.
pub fn some_claim_holds()
    ensures { (world : World) → (claim : Claim) × ClaimHolds world claim }
{}
