//! The words of a filter's text that are not values, as ss(8) has them.

ghost use Rattle.std.specs.Prelude.{◌≡◌};
ghost use Rattle.sock_diag_filters.specs.Keywords.{begins_operand, comparison_of, is_negated};
ghost use Rattle.sock_diag_filters.specs.Keywords.{keyword_named, takes};

use crate::condition::Comparison;
use crate::text::lookup::value_of;

/// What a condition compares.
#[derive(Clone, Copy)]
pub(crate) enum Field {
    /// The local port.
    SourcePort,
    /// The remote port.
    DestinationPort,
    /// The local address and port.
    Source,
    /// The remote address and port.
    Destination,
    /// The index of the interface.
    Interface,
    /// The mark.
    Mark,
    /// The id of the control group.
    Cgroup,
}

/// How a condition compares.
#[derive(Clone, Copy)]
pub(crate) enum Operator {
    /// Equal to the value.
    Equal,
    /// Not equal to the value.
    NotEqual,
    /// Greater than or equal to the value.
    AtLeast,
    /// Less than or equal to the value.
    AtMost,
    /// Greater than the value.
    Greater,
    /// Less than the value.
    Less,
}

/// A word that is not a value.
#[derive(Clone, Copy)]
pub(crate) enum Keyword {
    /// A state or a group of states follows, which is added to the states.
    State,
    /// A state or a group of states follows, which is removed from the states.
    Exclude,
    /// The start of a group.
    Open,
    /// The end of a group.
    Close,
    /// Both operands are met.
    And,
    /// At least one of the operands is met.
    Or,
    /// The operand that follows is not met.
    Not,
    /// The start of a condition that compares this field.
    Field(Field),
    /// The socket itself was not bound to its local port.
    AutoBound,
    /// The operator of a condition.
    Operator(Operator),
}

/// The keywords.
pub(crate) const KEYWORDS: [(&str, Keyword); 37] = [
    ("state", Keyword::State),
    ("exclude", Keyword::Exclude),
    ("excl", Keyword::Exclude),
    ("(", Keyword::Open),
    (")", Keyword::Close),
    ("and", Keyword::And),
    ("&", Keyword::And),
    ("&&", Keyword::And),
    ("or", Keyword::Or),
    ("|", Keyword::Or),
    ("||", Keyword::Or),
    ("not", Keyword::Not),
    ("!", Keyword::Not),
    ("sport", Keyword::Field(Field::SourcePort)),
    ("dport", Keyword::Field(Field::DestinationPort)),
    ("src", Keyword::Field(Field::Source)),
    ("dst", Keyword::Field(Field::Destination)),
    ("dev", Keyword::Field(Field::Interface)),
    ("fwmark", Keyword::Field(Field::Mark)),
    ("cgroup", Keyword::Field(Field::Cgroup)),
    ("autobound", Keyword::AutoBound),
    ("=", Keyword::Operator(Operator::Equal)),
    ("==", Keyword::Operator(Operator::Equal)),
    ("eq", Keyword::Operator(Operator::Equal)),
    ("!=", Keyword::Operator(Operator::NotEqual)),
    ("ne", Keyword::Operator(Operator::NotEqual)),
    ("neq", Keyword::Operator(Operator::NotEqual)),
    (">=", Keyword::Operator(Operator::AtLeast)),
    ("ge", Keyword::Operator(Operator::AtLeast)),
    ("geq", Keyword::Operator(Operator::AtLeast)),
    ("<=", Keyword::Operator(Operator::AtMost)),
    ("le", Keyword::Operator(Operator::AtMost)),
    ("leq", Keyword::Operator(Operator::AtMost)),
    (">", Keyword::Operator(Operator::Greater)),
    ("gt", Keyword::Operator(Operator::Greater)),
    ("<", Keyword::Operator(Operator::Less)),
    ("lt", Keyword::Operator(Operator::Less)),
];

/// Returns the keyword that a word is, or `None` if it is none, and so a value.
#[tactic(auto, unfolding(crate::specs::Keywords::keyword_named))]
pub(crate) fn keyword_named(word: &[u8]) -> Option<Keyword>
    ensures { result ≡ keyword_named word.now }
{
    value_of(&KEYWORDS, word)
}

impl Keyword {
    /// Returns whether an operand begins with the keyword.
    pub(crate) fn begins_operand(self) -> bool
        ensures { result ≡ begins_operand self }
    {
        matches!(
            self,
            Keyword::Open | Keyword::Not | Keyword::Field(_) | Keyword::AutoBound
        )
    }
}

impl Field {
    /// Returns whether conditions on the field have this operator: ports are compared by all
    /// operators, addresses only for equality, and other numbers for equality and its opposite.
    pub(crate) fn takes(self, operator: Operator) -> bool
        ensures { result ≡ takes self operator }
    {
        match (self, operator) {
            (Field::SourcePort | Field::DestinationPort, _) => true,
            (_, Operator::Equal) => true,
            (Field::Interface | Field::Mark | Field::Cgroup, Operator::NotEqual) => true,
            _ => false,
        }
    }
}

impl Operator {
    /// Returns the comparison of the operator, or of its opposite if the operator is negated.
    pub(crate) fn comparison(self) -> Comparison
        ensures { result ≡ comparison_of self }
    {
        match self {
            Operator::Equal | Operator::NotEqual => Comparison::Equal,
            Operator::AtLeast | Operator::Less => Comparison::AtLeast,
            Operator::AtMost | Operator::Greater => Comparison::AtMost,
        }
    }

    /// Returns whether the operator is the opposite of its comparison.
    pub(crate) fn is_negated(self) -> bool
        ensures { result ≡ is_negated self }
    {
        match self {
            Operator::Equal | Operator::AtLeast | Operator::AtMost => false,
            Operator::NotEqual | Operator::Less | Operator::Greater => true,
        }
    }
}
