//! Laws of links, each the contract of a function that does nothing.
ghost use Rattle.std.specs.Prelude.{ℕ, List};
ghost use Rattle.u_terms.specs.Syntax.{U, Val};
ghost use Rattle.u_equal.specs.declared.link.Link.{Link};
ghost use Rattle.u_equal.specs.Entails.{Entails, EntailsEach};
ghost use Rattle.u_equal.specs.Links.{Leads, LeadsEach};
ghost use Rattle.u_equal.specs.Routes.{IsDistance};

/// What links lead to is entailed, and values that are some number of links apart are entailed to be equal.
pub fn links_lead_to_what_is_entailed()
    ensures value { (product : U) (a b : Val) (links : List Link) → Leads product a links b → Entails product a b }
    ensures arguments { (product : U) (xs ys : List Val) (pairs : List (List Link)) → LeadsEach product xs pairs ys → EntailsEach product xs ys }
    ensures distance { (product : U) (a b : Val) (number : ℕ) → IsDistance product a b number → Entails product a b }
{}
