//! Laws of grammars, each the contract of a function that does nothing.
ghost use Rattle.std.specs.Prelude.{◌≡◌, ◌∷◌, List, Some, None, true, ℕ};
ghost use Rattle.grammar.specs.Form.{IsRoomier, Room, Rules, form_language, language};
ghost use Rattle.grammar.specs.Language.{Includes, HasPrefixes, IsUnambiguous};
ghost use Rattle.grammar.specs.Lookahead.{HasLookahead, PredictiveGrammar, limited, unlimited};
ghost use Rattle.grammar.specs.Parses.{name_begins, name_parses, whole_values};
ghost use Rattle.grammar.specs.Reading.{Exceeded, Failed, IsLongestPrefix, Took};

/// A grammar over tokens, which have kinds. Its names have productions, and values of their own.
pub trait Grammar {
    ghost Token: { Type 0 };

    ghost Kind: { Type 0 };

    ghost kind: { Token → Kind };

    ghost Name: { Type 0 };

    ghost Tree: { Name → Type 0 };

    ghost rules: { Rules Token Kind Name Tree };
}

/// A grammar in which one token of lookahead decides, as a table of its names says.
pub trait Predictive {
    ghost Token: { Type 0 };

    ghost Kind: { Type 0 };

    ghost Name: { Type 0 };

    ghost Tree: { Name → Type 0 };

    ghost grammar: { PredictiveGrammar Token Kind Name Tree };
}

/// A prefix of a prefix is a prefix, and so is a spelling, within any limits.
pub fn prefixes<G: Grammar>()
    ensures { (room : Room) (n : G.Name) → HasPrefixes (language G.kind G.rules room n) }
{}

/// What is within some limits is within wider ones, and with no limits.
pub fn limits<G: Grammar>()
    ensures { (small large : Room) → IsRoomier small large → (n : G.Name) →
        Includes (language G.kind G.rules large n) (language G.kind G.rules small n) }
{}

/// A name has the language of its production.
pub fn productions<G: Grammar>()
    ensures there { (room : Room) (n : G.Name) →
        Includes (form_language G.kind (language G.kind G.rules) room (G.rules n)) (language G.kind G.rules room n) }
    ensures back { (room : Room) (n : G.Name) →
        Includes (language G.kind G.rules room n) (form_language G.kind (language G.kind G.rules) room (G.rules n)) }
{}

/// What is computed to be a whole value is spelled, within any limits, and what is computed to be a prefix is one.
pub fn computing<G: Grammar>()
    ensures spelled { (height : ℕ) (room : Room) (n : G.Name) (ts : List G.Token) (v : G.Tree n) (others : List (G.Tree n)) →
        whole_values (name_parses G.kind G.rules height room n ts) ≡ v ∷ others → (language G.kind G.rules room n).spells ts v }
    ensures begun { (height : ℕ) (room : Room) (n : G.Name) (ts : List G.Token) → name_begins G.kind G.rules height room n ts ≡ true →
        (language G.kind G.rules room n).prefix ts }
{}

/// Where a reader stops, it has taken the longest prefix.
pub fn longest<G: Grammar>()
    ensures read { (n : G.Name) (levels : ℕ) (ts rest : List G.Token) (v : G.Tree n) →
        (r : Took (language G.kind G.rules None n) (language G.kind G.rules (Some levels) n) ts v rest) →
        IsLongestPrefix (language G.kind G.rules None n) ts r.taken }
    ensures refused { (n : G.Name) (levels : ℕ) (ts rest : List G.Token) →
        (r : Failed (language G.kind G.rules None n) (language G.kind G.rules (Some levels) n) ts rest) →
        IsLongestPrefix (language G.kind G.rules None n) ts r.taken }
{}

/// What the table says of a name holds of its language.
pub fn lookahead<G: Predictive>()
    ensures { (room : Room) (n : G.Name) → HasLookahead G.grammar.kind (language G.grammar.kind G.grammar.rules room n) (G.grammar.table n) }
{}

/// No list of tokens spells two values.
pub fn one_value<G: Predictive>()
    ensures { (room : Room) (n : G.Name) → IsUnambiguous (language G.grammar.kind G.grammar.rules room n) }
{}

/// A list of tokens is read with one value, or refused, or found to pass the limits, and at one place.
pub fn one_outcome<G: Predictive>()
    ensures read_once { (n : G.Name) (levels : ℕ) (ts rest other : List G.Token) (v w : G.Tree n) →
        Took (unlimited G.grammar n) (limited G.grammar levels n) ts v rest →
        Took (unlimited G.grammar n) (limited G.grammar levels n) ts w other → (v ≡ w) × (rest ≡ other) }
    ensures refused_once { (n : G.Name) (levels : ℕ) (ts rest other : List G.Token) →
        Failed (unlimited G.grammar n) (limited G.grammar levels n) ts rest →
        Failed (unlimited G.grammar n) (limited G.grammar levels n) ts other → rest ≡ other }
    ensures passed_once { (n : G.Name) (levels : ℕ) (ts rest other : List G.Token) →
        Exceeded (unlimited G.grammar n) (limited G.grammar levels n) ts rest →
        Exceeded (unlimited G.grammar n) (limited G.grammar levels n) ts other → rest ≡ other }
    ensures read_or_refused { (n : G.Name) (levels : ℕ) (ts rest other : List G.Token) (v : G.Tree n) →
        Took (unlimited G.grammar n) (limited G.grammar levels n) ts v rest →
        Failed (unlimited G.grammar n) (limited G.grammar levels n) ts other → ⊥ }
    ensures read_or_passed { (n : G.Name) (levels : ℕ) (ts rest other : List G.Token) (v : G.Tree n) →
        Took (unlimited G.grammar n) (limited G.grammar levels n) ts v rest →
        Exceeded (unlimited G.grammar n) (limited G.grammar levels n) ts other → ⊥ }
    ensures refused_or_passed { (n : G.Name) (levels : ℕ) (ts rest other : List G.Token) →
        Failed (unlimited G.grammar n) (limited G.grammar levels n) ts rest →
        Exceeded (unlimited G.grammar n) (limited G.grammar levels n) ts other → ⊥ }
{}
