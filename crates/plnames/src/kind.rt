//! Control constructs and built-in predicates.

/// Where a clause is added to its procedure (ISO/IEC 13211-1 8.9.1, 8.9.2).
#[derive(Clone, Copy, PartialEq, Eq)]
pub enum Side {
    /// Before all others.
    Front,
    /// Behind all others.
    Back,
}

/// A control construct (ISO/IEC 13211-1 7.8), or a predicate that asks something of the run as a control construct does:
/// those on clauses (8.8, 8.9), and halt/0, halt/1.
#[derive(Clone, Copy, PartialEq, Eq)]
pub enum Control {
    /// true/0.
    True,
    /// fail/0 and false/0.
    Fail,
    /// `,`/2.
    And,
    /// `;`/2.
    Or,
    /// `->`/2.
    IfThen,
    /// !/0.
    Cut,
    /// `\+`/1.
    Not,
    /// once/1.
    Once,
    /// call/1 to call/8.
    Call,
    /// catch/3.
    Catch,
    /// findall/3.
    FindAll,
    /// transaction/1.
    Transaction,
    /// snapshot/1.
    Snapshot,
    /// throw/1.
    Throw,
    /// asserta/1, assertz/1 and assert/1.
    Add(Side),
    /// clause/2.
    Retrieve,
    /// retract/1.
    Retract,
    /// retractall/1.
    RetractAll,
    /// dynamic/1.
    Declare,
    /// halt/0 and halt/1.
    Halt,
}

/// A built-in predicate on terms (8.2).
#[derive(Clone, Copy, PartialEq, Eq)]
pub enum Terms {
    /// =/2, and unify_with_occurs_check/2, since each unification makes the occurs check.
    Unify,
    /// `\=`/2.
    Differ,
}

/// A built-in predicate that asks what a term is (8.3).
#[derive(Clone, Copy, PartialEq, Eq)]
pub enum Tests {
    /// var/1.
    Variable,
    /// nonvar/1.
    Bound,
    /// atom/1.
    Atom,
    /// integer/1 and number/1: each number is an integer.
    Integer,
    /// atomic/1.
    Atomic,
    /// compound/1.
    Compound,
    /// callable/1.
    Callable,
    /// is_list/1.
    ProperList,
}

/// A built-in predicate on the parts of a term (8.5).
#[derive(Clone, Copy, PartialEq, Eq)]
pub enum Parts {
    /// arg/3.
    Argument,
    /// functor/3.
    Functor,
    /// `=..`/2.
    Univ,
    /// copy_term/2.
    Copy,
    /// term_variables/2.
    Variables,
}

/// How two integers compare (8.7).
#[derive(Clone, Copy, PartialEq, Eq)]
pub enum Comparison {
    /// `=:=`/2.
    Equal,
    /// `=\=`/2.
    Unequal,
    /// `<`/2.
    Less,
    /// `=<`/2.
    AtMost,
    /// `>`/2.
    Greater,
    /// `>=`/2.
    AtLeast,
}

/// A built-in predicate that evaluates expressions (8.6, 8.7).
#[derive(Clone, Copy, PartialEq, Eq)]
pub enum Arithmetic {
    /// is/2.
    Is,
    /// A comparison of the values of two expressions.
    Compare(Comparison),
}

/// What the order of two terms has to be (8.4.1).
#[derive(Clone, Copy, PartialEq, Eq)]
pub enum Relation {
    /// `==`/2.
    Same,
    /// `\==`/2.
    Different,
    /// `@<`/2.
    Before,
    /// `@=<`/2.
    NotAfter,
    /// `@>`/2.
    After,
    /// `@>=`/2.
    NotBefore,
}

/// A built-in predicate that looks at terms as they are (8.3.10, 8.4).
#[derive(Clone, Copy, PartialEq, Eq)]
pub enum Order {
    /// The order of two terms is one of some.
    Holds(Relation),
    /// compare/3.
    Compare,
    /// ground/1.
    Ground,
}

/// A built-in predicate that puts the elements of a list in order (Cor.2 8.4.3, 8.4.4).
#[derive(Clone, Copy, PartialEq, Eq)]
pub enum Sorting {
    /// sort/2: of equal elements one is left.
    Once,
    /// msort/2: all elements stay.
    Each,
    /// keysort/2: pairs, by their keys.
    Keys,
}

/// How a text is spelled as a list (6.3.7).
#[derive(Clone, Copy, PartialEq, Eq)]
pub enum Spelling {
    /// By one-character atoms.
    Characters,
    /// By the codes of its characters.
    Codes,
}

/// A built-in predicate on atoms (8.16).
#[derive(Clone, Copy, PartialEq, Eq)]
pub enum Atoms {
    /// atom_length/2.
    Length,
    /// atom_chars/2 and atom_codes/2.
    Spelled(Spelling),
    /// char_code/2.
    CharacterCode,
    /// number_chars/2 and number_codes/2.
    NumberSpelled(Spelling),
    /// atom_number/2.
    Number,
    /// atom_concat/3.
    Concatenation,
    /// sub_atom/5.
    Part,
}

/// A built-in predicate that writes (8.14).
#[derive(Clone, Copy, PartialEq, Eq)]
pub enum Output {
    /// write/1.
    Write,
    /// writeq/1 and print/1.
    WriteQuoted,
    /// write_canonical/1.
    WriteCanonical,
    /// writeln/1.
    WriteLine,
    /// nl/0.
    Newline,
    /// flush_output/0.
    Flush,
    /// put_char/1.
    PutCharacter,
    /// tab/1.
    Tab,
    /// format/1 and format/2.
    Format,
}

/// A built-in predicate on the operators and the flags (8.14.3, 8.14.4, 8.17).
#[derive(Clone, Copy, PartialEq, Eq)]
pub enum Flags {
    /// op/3.
    Operator,
    /// current_op/3.
    CurrentOperator,
    /// set_prolog_flag/2.
    Set,
    /// current_prolog_flag/2.
    Current,
}

/// A built-in predicate, by its topic.
#[derive(Clone, Copy, PartialEq, Eq)]
pub enum BuiltIn {
    Terms(Terms),
    Tests(Tests),
    Parts(Parts),
    Arithmetic(Arithmetic),
    Order(Order),
    Sorting(Sorting),
    Atoms(Atoms),
    Output(Output),
    Flags(Flags),
}

/// What a name with an arity is, if it is fixed.
#[derive(Clone, Copy, PartialEq, Eq)]
pub enum Kind {
    Control(Control),
    BuiltIn(BuiltIn),
}
