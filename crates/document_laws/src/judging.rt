//! Layouts that are judged.

ghost use Rattle.std.specs.Prelude.{◌≡◌, ℕ, List, Bool};
ghost use Rattle.cable_definitions.specs.declared.cable.Cable.{Cable};
ghost use Rattle.cable_definitions.specs.declared.claim.Cause.{Cause};
ghost use Rattle.cable_definitions.specs.declared.site.SiteCode.{SiteCode};
ghost use Rattle.cable_definitions.specs.Site.{Site};
ghost use Rattle.cable_definitions.specs.Items.{IsLineFault};
ghost use Rattle.cable_definitions.specs.Refusal.{IsJudgeRefused, IsSiteWithCables};

/// Bytes that are judged are one site with one list of cables.
pub fn judging_is_determined()
    ensures { (bytes : List ℕ) (s t : Site) (cables others : List Cable) → IsSiteWithCables bytes s cables → IsSiteWithCables bytes t others
        → (s ≡ t) × (cables ≡ others) }
{}

/// Bytes that are judged are refused at no line behind their site, and bytes that are judged or refused so begin with a site without a fault.
/// What is refused is refused at one line for one cause.
pub fn judged_is_not_refused()
    ensures refused { (bytes : List ℕ) (s : Site) (cables : List Cable) (line : ℕ) (cause : Cause) → IsSiteWithCables bytes s cables
        → ¬ (IsJudgeRefused bytes line cause) }
    ensures fault { (bytes : List ℕ) (s : Site) (cables : List Cable) (base : ℕ) (code : SiteCode) (place : ℕ) (broken_line : Bool)
        → IsSiteWithCables bytes s cables → ¬ (IsLineFault bytes base code place broken_line) }
    ensures refused_fault { (bytes : List ℕ) (line : ℕ) (cause : Cause) (base : ℕ) (code : SiteCode) (place : ℕ) (broken_line : Bool)
        → IsJudgeRefused bytes line cause → ¬ (IsLineFault bytes base code place broken_line) }
    ensures one { (bytes : List ℕ) (line there : ℕ) (cause other : Cause) → IsJudgeRefused bytes line cause → IsJudgeRefused bytes there other
        → (line ≡ there) × (cause ≡ other) }
{}
