//! The state of parsing a filter's text, word by word.

ghost use Rattle.std.specs.Prelude.{◌≡◌, ◌+◌, ◌≤◌, Some, length};
ghost use Rattle.sock_diag_filters.specs.Reading.{after_field, after_operand, after_operator};
ghost use Rattle.sock_diag_filters.specs.Reading.{after_start, after_value, begun, closed};
ghost use Rattle.sock_diag_filters.specs.Reading.{completed, initial, next, with_condition};
ghost use Rattle.sock_diag_filters.specs.Reading.{with_pending};
ghost use Rattle.sock_diag_filters.specs.declared.text.parsed.TheConstants.{MAX_PARTS};
ghost use Rattle.sock_diag_filters.specs.declared.text.reader.Pending.TheVariants.{Group};

use crate::condition::Condition;
use crate::text::keywords::{Field, Keyword, Operator, keyword_named};
use crate::text::parsed::{FilterTextError, MAX_PARTS, ParsedFilter, Part};
use crate::text::states::{ALL, states_named};
use crate::text::values::condition_in;
use arrayvec::ArrayVec;

/// What may follow the words so far.
#[derive(Clone, Copy)]
pub(crate) enum Place {
    /// `state`, `exclude`, an operand, or the end.
    Start,
    /// The name of states that are added.
    Added,
    /// The name of states that are removed.
    Removed,
    /// An operand.
    Operand,
    /// An operator or the value of a condition on this field.
    Field(Field),
    /// The value of a condition on this field with this operator.
    Value(Field, Operator),
    /// An operator, an operand, the end of a group, or the end.
    Operator,
}

/// An operator or a group whose operand is not complete.
#[derive(Clone, Copy)]
pub(crate) enum Pending {
    /// A group.
    Group,
    /// `not`.
    Not,
    /// `and`, with its first operand.
    And,
    /// `or`, with its first operand.
    Or,
}

// What fills the unused slots of a list.
impl Default for Pending {
    ghost is_default = { λ pending. pending ≡ Group };

    fn default() -> Pending {
        Pending::Group
    }
}

/// The reason why a word is rejected.
#[derive(Clone, Copy)]
pub(crate) enum Problem {
    /// It cannot follow the words before it.
    Unexpected,
    /// The filter has too many parts.
    TooLong,
}

/// The state after some words.
#[derive(Drop)]
pub(crate) struct Reader {
    /// What may follow.
    pub(crate) place: Place,
    /// The states that the words select, if they name any.
    pub(crate) states: Option<u32>,
    /// The operators and groups whose operand is not complete, the innermost last.
    pub(crate) pending: ArrayVec<Pending, MAX_PARTS>,
    /// The parts of the filter that are complete, in postfix order.
    pub(crate) parts: ArrayVec<Part, MAX_PARTS>,
    // An operator that becomes complete is moved from `pending` to `parts`, so that there is a
    // place for it.
    ghost within: { length pending.items + length parts.items ≤ MAX_PARTS },
}

impl Reader {
    ghost use Rattle.sock_diag_filters.specs.Parsed.{ReadsAt};
    ghost use Rattle.sock_diag_filters.specs.Readers.{Follows, IsFinished, state_of};

    /// Returns the state before the first word.
    pub(crate) fn new() -> Reader
        ensures { state_of result ≡ initial }
    {
        Reader {
            place: Place::Start,
            states: None,
            pending: ArrayVec::new(),
            parts: ArrayVec::new(),
        }
    }

    /// Reads the word at this offset of the text, unless it is empty.
    pub(crate) fn read_at(&mut self, start: usize, word: &[u8]) -> Result<(), FilterTextError>
        ensures { ReadsAt (state_of self.old) start word.now result (state_of self.new) }
    {
        if word.is_empty() {
            return Ok(());
        }
        match self.read(word) {
            Ok(()) => Ok(()),
            Err(Problem::Unexpected) => Err(FilterTextError::Unexpected { offset: start }),
            Err(Problem::TooLong) => Err(FilterTextError::TooLong { offset: start }),
        }
    }

    /// Returns the filter that was read, or `Incomplete` if the text may not end here.
    pub(crate) fn finish(self) -> Result<ParsedFilter, FilterTextError>
        ensures { IsFinished (state_of self) result }
    {
        let is_complete = match self.place {
            Place::Start => true,
            Place::Operator => self.pending.is_empty(),
            _ => false,
        };
        if !is_complete {
            return Err(FilterTextError::Incomplete);
        }
        Ok(ParsedFilter {
            states: self.states,
            parts: self.parts,
        })
    }

    /// Reads the next word. Fails with `Unexpected` if it cannot follow the words so far, and with
    /// `TooLong` if the filter would have more than [`MAX_PARTS`] parts. After an error the state
    /// is not specified.
    pub(crate) fn read(&mut self, word: &[u8]) -> Result<(), Problem>
        ensures { Follows (next (state_of self.old) word.now) result self.new }
    {
        match self.place {
            Place::Added => self.add_states(word),
            Place::Removed => self.remove_states(word),
            Place::Field(field) => self.read_field(field, word),
            Place::Value(field, operator) => self.read_value(field, operator, word),
            Place::Start => match keyword_named(word) {
                Some(keyword) => self.start(keyword),
                None => Err(Problem::Unexpected),
            },
            Place::Operand => match keyword_named(word) {
                Some(keyword) => self.begin(keyword),
                None => Err(Problem::Unexpected),
            },
            Place::Operator => match keyword_named(word) {
                Some(keyword) => self.follow(keyword),
                None => Err(Problem::Unexpected),
            },
        }
    }
}

impl Reader {
    ghost use Rattle.std.specs.Prelude.{◌↔◌, IsTrue};
    ghost use Rattle.sock_diag_filters.specs.Keywords.{keyword_named};
    ghost use Rattle.sock_diag_filters.specs.Reading.{next_at, operator_of, size};
    ghost use Rattle.sock_diag_filters.specs.Readers.{Follows, state_of};
    ghost use Rattle.sock_diag_filters.specs.declared.text.reader.Place.TheVariants.{Added};
    ghost use Rattle.sock_diag_filters.specs.declared.text.reader.Place.TheVariants.{Removed};
    ghost use Rattle.sock_diag_filters.specs.declared.text.reader.Pending.TheVariants.{And};

    // Reads the name of states that are added.
    fn add_states(&mut self, name: &[u8]) -> Result<(), Problem>
        ensures { Follows (next_at Added (state_of self.old) name.now) result self.new }
    {
        let Some(named) = states_named(name) else {
            return Err(Problem::Unexpected);
        };
        self.states = Some(self.states.unwrap_or(0) | named);
        self.place = Place::Start;
        Ok(())
    }

    // Reads the name of states that are removed.
    fn remove_states(&mut self, name: &[u8]) -> Result<(), Problem>
        ensures { Follows (next_at Removed (state_of self.old) name.now) result self.new }
    {
        let Some(named) = states_named(name) else {
            return Err(Problem::Unexpected);
        };
        self.states = Some(self.states.unwrap_or(ALL) & (named ^ ALL));
        self.place = Place::Start;
        Ok(())
    }

    // Reads a keyword before the first operand.
    fn start(&mut self, keyword: Keyword) -> Result<(), Problem>
        ensures { Follows (after_start (state_of self.old) keyword) result self.new }
    {
        match keyword {
            Keyword::State => self.place = Place::Added,
            Keyword::Exclude => self.place = Place::Removed,
            _ => return self.begin(keyword),
        }
        Ok(())
    }

    // Reads the first keyword of an operand.
    fn begin(&mut self, keyword: Keyword) -> Result<(), Problem>
        ensures { Follows (begun (state_of self.old) keyword) result self.new }
    {
        match keyword {
            Keyword::Open => self.add_pending(Pending::Group),
            Keyword::Not => self.add_pending(Pending::Not),
            Keyword::Field(field) => {
                self.place = Place::Field(field);
                Ok(())
            }
            Keyword::AutoBound => self.add_condition(false, Condition::AutoBound),
            _ => Err(Problem::Unexpected),
        }
    }

    // Reads a keyword that follows an operand.
    fn follow(&mut self, keyword: Keyword) -> Result<(), Problem>
        ensures { Follows (after_operand (state_of self.old) keyword) result self.new }
    {
        match keyword {
            Keyword::And => self.add_pending(Pending::And),
            Keyword::Or => self.add_pending(Pending::Or),
            Keyword::Close => self.close(),
            _ => self.follow_directly(keyword),
        }
    }

    // Reads the first keyword of an operand that follows another one without an operator.
    fn follow_directly(&mut self, keyword: Keyword) -> Result<(), Problem>
        ensures { Follows (begun (with_pending And (state_of self.old)) keyword) result self.new }
    {
        if !keyword.begins_operand() {
            return Err(Problem::Unexpected);
        }
        self.add_pending(Pending::And)?;
        self.begin(keyword)
    }

    // Reads the operator of a condition on the field, or its value.
    fn read_field(&mut self, field: Field, word: &[u8]) -> Result<(), Problem>
        ensures { Follows (after_field field (state_of self.old) word.now (keyword_named word.now))
            result self.new }
    {
        match keyword_named(word) {
            None => self.add_value(field, Operator::Equal, word),
            Some(Keyword::Operator(operator)) if field.takes(operator) => {
                self.place = Place::Value(field, operator);
                Ok(())
            }
            Some(_) => Err(Problem::Unexpected),
        }
    }

    // Reads the value of a condition on the field after its operator.
    fn read_value(&mut self, field: Field, operator: Operator, word: &[u8]) -> Result<(), Problem>
        ensures { Follows (after_operator field operator (state_of self.old) word.now
            (keyword_named word.now)) result self.new }
    {
        match keyword_named(word) {
            None => self.add_value(field, operator, word),
            Some(_) => Err(Problem::Unexpected),
        }
    }

    // Adds the condition on the field with this operator and value.
    fn add_value(&mut self, field: Field, operator: Operator, value: &[u8]) -> Result<(), Problem>
        ensures { Follows (after_value field operator (state_of self.old) value.now) result
            self.new }
    {
        match condition_in(field, operator.comparison(), value) {
            Some(condition) => self.add_condition(operator.is_negated(), condition),
            None => Err(Problem::Unexpected),
        }
    }

    // Adds a condition, or the opposite of it if it is negated, and with it completes the operators
    // that wait for it.
    fn add_condition(&mut self, negated: bool, condition: Condition) -> Result<(), Problem>
        ensures { Follows (Some (with_condition negated condition (state_of self.old))) result
            self.new }
    {
        if negated {
            self.add_pending(Pending::Not)?;
        }
        if self.is_full() {
            return Err(Problem::TooLong);
        }
        self.parts.push(Part::Condition(condition));
        self.complete();
        Ok(())
    }

    // Closes the innermost group, and with it completes the operators that wait for it.
    fn close(&mut self) -> Result<(), Problem>
        ensures { Follows (closed (state_of self.old) (state_of self.old).pending) result self.new }
    {
        match self.pending.pop() {
            Some(Pending::Group) => {
                self.complete();
                Ok(())
            }
            _ => Err(Problem::Unexpected),
        }
    }

    // Completes the operators up to the innermost group: moves them to the parts.
    fn complete(&mut self)
        ensures { state_of self.new ≡ completed (state_of self.old) }
    {
        self.place = Place::Operator;
        while let Some(part) = self.last_operator() {
            self.pending.pop();
            self.parts.push(part);
        }
    }

    // Returns the innermost operator as a part, or `None` if there is none or a group is inside it.
    fn last_operator(&self) -> Option<Part>
        ensures { result ≡ operator_of (state_of self.now).pending }
    {
        match self.pending.last() {
            None | Some(Pending::Group) => None,
            Some(Pending::Not) => Some(Part::Not),
            Some(Pending::And) => Some(Part::And),
            Some(Pending::Or) => Some(Part::Or),
        }
    }

    // Adds an operator or a group whose operand follows.
    fn add_pending(&mut self, operator: Pending) -> Result<(), Problem>
        ensures { Follows (Some (with_pending operator (state_of self.old))) result self.new }
    {
        if self.is_full() {
            return Err(Problem::TooLong);
        }
        self.pending.push(operator);
        self.place = Place::Operand;
        Ok(())
    }

    // Returns whether there are as many parts as there may be.
    fn is_full(&self) -> bool
        ensures { IsTrue result ↔ (size (state_of self.now) ≡ MAX_PARTS) }
    {
        self.pending.len() + self.parts.len() == MAX_PARTS
    }
}
