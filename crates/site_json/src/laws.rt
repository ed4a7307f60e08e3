//! The laws of sites in JSON and of whole inputs: what determines them, and that a fault and a site exclude each other.

ghost use Rattle.std.specs.Prelude.{◌≡◌, ℕ, List};
ghost use Rattle.cable_definitions.specs.declared.site.SiteCode.{SiteCode};
ghost use Rattle.cable_definitions.specs.Site.{Site};
ghost use Rattle.run_definitions.specs.Bytes.{IsJsonSite, IsJsonFault, IsSiteOf, IsPlanFault, IsFrontSite, IsFrontFault};

/// Bytes that are a JSON site have no fault.
pub fn json_sites_have_no_fault()
    ensures { (bytes : List ℕ) (s : Site) (code : SiteCode) (place : ℕ) → IsJsonSite bytes s → ¬ (IsJsonFault bytes code place) }
{}

/// Bytes are at most one JSON site.
pub fn bytes_determine_a_json_site()
    ensures { (bytes : List ℕ) (s t : Site) → IsJsonSite bytes s → IsJsonSite bytes t → s ≡ t }
{}

/// Bytes have at most one fault as a JSON site: its code and its place.
pub fn a_json_fault_is_determined()
    ensures { (bytes : List ℕ) (code other : SiteCode) (place there : ℕ) → IsJsonFault bytes code place → IsJsonFault bytes other there
        → (code ≡ other) × (place ≡ there) }
{}

/// Bytes that are a site, in lines or in JSON, have no fault.
pub fn sites_have_no_plan_fault()
    ensures { (bytes : List ℕ) (s : Site) (code : SiteCode) (place : ℕ) → IsSiteOf bytes s → ¬ (IsPlanFault bytes code place) }
{}

/// Bytes are at most one site.
pub fn bytes_determine_a_site()
    ensures { (bytes : List ℕ) (s t : Site) → IsSiteOf bytes s → IsSiteOf bytes t → s ≡ t }
{}

/// Bytes that begin with a site in lines, or are a site in JSON, have no fault.
pub fn front_sites_have_no_fault()
    ensures { (bytes : List ℕ) (s : Site) (code : SiteCode) (place : ℕ) → IsFrontSite bytes s → ¬ (IsFrontFault bytes code place) }
{}

/// Bytes begin with at most one site in lines, or are at most one in JSON.
pub fn bytes_determine_a_front_site()
    ensures { (bytes : List ℕ) (s t : Site) → IsFrontSite bytes s → IsFrontSite bytes t → s ≡ t }
{}

/// Bytes have at most one fault up to the end of a site.
pub fn a_front_fault_is_determined()
    ensures { (bytes : List ℕ) (code other : SiteCode) (place there : ℕ) → IsFrontFault bytes code place → IsFrontFault bytes other there
        → (code ≡ other) × (place ≡ there) }
{}

/// Bytes have at most one fault as a whole site.
pub fn a_plan_fault_is_determined()
    ensures { (bytes : List ℕ) (code other : SiteCode) (place there : ℕ) → IsPlanFault bytes code place → IsPlanFault bytes other there
        → (code ≡ other) × (place ≡ there) }
{}
