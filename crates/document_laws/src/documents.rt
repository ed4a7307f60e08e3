//! Whole documents.

ghost use Rattle.std.specs.Prelude.{◌≡◌, ◌<◌, ◌++◌, ℕ, List, [], AllPairs};
ghost use Rattle.cable_definitions.specs.declared.cable.Arc.{Arc};
ghost use Rattle.cable_definitions.specs.declared.cable.Cable.{Cable};
ghost use Rattle.cable_definitions.specs.declared.claim.Claim.{Claim};
ghost use Rattle.cable_definitions.specs.declared.claim.Cause.{Cause};
ghost use Rattle.cable_definitions.specs.Site.{Site, IsValid};
ghost use Rattle.cable_definitions.specs.Arcs.{AreArcs};
ghost use Rattle.cable_definitions.specs.Command.{IsBudget};
ghost use Rattle.cable_definitions.specs.Tree.{Item, ProofState, IsAccepted, Agrees};
ghost use Rattle.cable_definitions.specs.Text.{site_lines, document_text};
ghost use Rattle.cable_definitions.specs.Document.{IsClaimInRange, IsAcceptedDocument};
ghost use Rattle.document_laws.specs.Once.{SameReading};
ghost use Rattle.cable_definitions.specs.Refusal.{DocLine, Reader, AtBudget, Past, reader_at, ReadsLines, IsRefused};

/// Where the items are accepted and the claim agrees with them, the reader reads all that is written behind the site.
pub fn documents_are_read()
    ensures { (s : Site) (arcs : List Arc) (n : ℕ) (items : List Item) (kept : ProofState) (cables : List Cable) (claim : Claim) (rest : List ℕ) → IsValid s
        → AreArcs s arcs → IsBudget n → IsAccepted s arcs n items kept → AllPairs (λ c d. c.from < d.from) cables
        → IsClaimInRange claim → Agrees s n kept cables claim → document_text s n items cables claim ≡ site_lines s ++ rest
        → (lines : List DocLine) × (end : Reader) × ReadsLines s arcs (reader_at AtBudget) rest lines end [] × (end.phase ≡ Past) }
{}

/// A document with a true claim is refused at no line and for no cause.
pub fn yes_excludes_a_refusal()
    ensures { (bytes : List ℕ) (s : Site) (claim : Claim) (base line : ℕ) (cause : Cause) → IsAcceptedDocument bytes s claim → ¬ (IsRefused bytes base line cause) }
{}

/// Bytes that are accepted are a document of one site, one budget, one list of items, one list of cables and one claim; bytes that
/// are refused are refused at one line for one cause.
pub fn bytes_determine_a_document()
    ensures yes { (bytes : List ℕ) (s t : Site) (claim other : Claim) (y : IsAcceptedDocument bytes s claim) (z : IsAcceptedDocument bytes t other) → SameReading bytes s t claim other y z }
    ensures refusal { (bytes : List ℕ) (base line there : ℕ) (cause other : Cause) → IsRefused bytes base line cause → IsRefused bytes base there other
        → (line ≡ there) × (cause ≡ other) }
{}

/// No proper first part of an accepted document is one.
pub fn no_first_part_is_a_document()
    ensures { (bytes more : List ℕ) (s t : Site) (claim other : Claim) → IsAcceptedDocument bytes s claim → IsAcceptedDocument (bytes ++ more) t other → more ≡ [] }
{}
