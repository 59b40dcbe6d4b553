//! The rules as data, a row for each.
ghost use Rattle.u_rules.specs.Templates.{IsEntry};

use crate::forms::{Kind, Side, Template};
use crate::rule::Rule;

/// How a rule has its sides.
#[derive(Clone, Copy)]
pub enum Entry {
    Plain(&'static Template<'static>),
    SumSwap,
    Key,
    Fkey,
}

// The place of an argument.
macro_rules! at {
    (x) => { 0 };
    (y) => { 1 };
    (z) => { 2 };
}

// A side as text has it, with x, y and z for the arguments: `y(x)` is the body y with the value x at its place, and `b0` is place 0.
macro_rules! side {
    (0) => { Side::Zero };
    (1) => { Side::One };
    (+($a:tt, $($b:tt)+)) => { Side::Add(&side!($a), &side!($($b)+)) };
    (+($a:tt $args:tt, $($b:tt)+)) => { Side::Add(&side!($a $args), &side!($($b)+)) };
    (*($a:tt, $($b:tt)+)) => { Side::Mul(&side!($a), &side!($($b)+)) };
    (*($a:tt $args:tt, $($b:tt)+)) => { Side::Mul(&side!($a $args), &side!($($b)+)) };
    (#($($a:tt)+)) => { Side::Squash(&side!($($a)+)) };
    (!($($a:tt)+)) => { Side::Not(&side!($($a)+)) };
    (S($($a:tt)+)) => { Side::Sum(&side!($($a)+)) };
    (=(b0, $b:tt)) => { Side::PlaceEq(at!($b)) };
    (=($a:tt, $b:tt)) => { Side::Eq(at!($a), at!($b)) };
    (P($p:tt, $s:tt)) => { Side::Pred(at!($p), at!($s)) };
    ($f:tt($e:tt)) => { Side::Put(at!($f), at!($e)) };
    ($x:tt) => { Side::Hole(at!($x)) };
}

macro_rules! row {
    ([$($kind:ident),*] $left:tt $right:tt) => {
        Template { kinds: &[$(Kind::$kind),*], left: row!(@ $left), right: row!(@ $right) }
    };
    (@ [$($side:tt)+]) => { side!($($side)+) };
}

type Row = Template<'static>;

static ADD_AC: Row = row!([Term, Term][x][y]);

static MUL_AC: Row = row!([Term, Term][x][y]);

static MUL_ZERO: Row = row!([Term][*(x, 0)][0]);

static DISTR: Row = row!([Term, Term, Term] [*(x, +(y, z))] [+(*(x, y), *(x, z))]);

static SQ_ZERO: Row = row!([] [#(0)] [0]);

static SQ_ONE: Row = row!([Term] [#(+(1, x))] [1]);

static SQ_ADD: Row = row!([Term, Term] [#(+(#(x), y))] [#(+(x, y))]);

static SQ_MUL: Row = row!([Term, Term] [*(#(x), #(y))] [#(*(x, y))]);

static SQ_DUP: Row = row!([Term] [*(#(x), #(x))] [#(x)]);

static SQ_ABS: Row = row!([Term] [*(x, #(x))] [x]);

static SQ_FIX: Row = row!([Term] [#(x)] [x]);

static SQ_PART: Row = row!([Term, Term] [*(#(x), #(+(x, y)))] [#(x)]);

static SQ_EQ: Row = row!([Value, Value] [#(=(x, y))] [=(x, y)]);

static SQ_PRED: Row = row!([Num, Values] [#(P(x, y))] [P(x, y)]);

static NOT_ZERO: Row = row!([][!(0)][1]);

static NOT_ONE: Row = row!([][!(1)][0]);

static NOT_MUL: Row = row!([Term, Term] [!(*(x, y))] [#(+(!(x), !(y)))]);

static NOT_ADD: Row = row!([Term, Term] [!(+(x, y))] [*(!(x), !(y))]);

static NOT_SQ: Row = row!([Term] [!(#(x))] [!(x)]);

static SQ_NOT: Row = row!([Term] [#(!(x))] [!(x)]);

static NOT_SELF: Row = row!([Term][*(x, !(x))][0]);

static NOT_NOT: Row = row!([Term] [!(!(x))] [#(x)]);

static SPLIT: Row = row!([Term] [+(#(x), !(x))] [1]);

static SUM_ZERO: Row = row!([][S(0)][0]);

static SUM_ADD: Row = row!([Body, Body] [S(+(x, y))] [+(S(x), S(y))]);

static SUM_MUL: Row = row!([Term, Body][*(x, S(y))][S(*(x, y))]);

static SUM_SQ: Row = row!([Body] [#(S(x))] [#(S(#(x)))]);

static SUM_POINT: Row = row!([Value, Body] [S(*(=(b0, x), y))] [y(x)]);

static SUM_USE: Row = row!([Value, Body] [*(#(y(x)), #(S(y)))] [#(y(x))]);

static EQ_REFL: Row = row!([Value] [=(x, x)] [1]);

static EQ_SYM: Row = row!([Value, Value] [=(x, y)] [=(y, x)]);

static EQ_SUBST: Row = row!([Value, Value, Body] [*(=(x, y), z(x))] [*(=(x, y), z(y))]);

static EQ_SPLIT: Row = row!([Value, Value] [+(=(x, y), !(=(x, y)))] [1]);

pub fn entry_of(rule: Rule) -> Entry
    ensures { IsEntry rule result }
{
    match rule {
        Rule::AddAc => Entry::Plain(&ADD_AC),
        Rule::MulAc => Entry::Plain(&MUL_AC),
        Rule::MulZero => Entry::Plain(&MUL_ZERO),
        Rule::Distr => Entry::Plain(&DISTR),
        Rule::SqZero => Entry::Plain(&SQ_ZERO),
        Rule::SqOne => Entry::Plain(&SQ_ONE),
        Rule::SqAdd => Entry::Plain(&SQ_ADD),
        Rule::SqMul => Entry::Plain(&SQ_MUL),
        Rule::SqDup => Entry::Plain(&SQ_DUP),
        Rule::SqAbs => Entry::Plain(&SQ_ABS),
        Rule::SqFix => Entry::Plain(&SQ_FIX),
        Rule::SqPart => Entry::Plain(&SQ_PART),
        Rule::SqEq => Entry::Plain(&SQ_EQ),
        Rule::SqPred => Entry::Plain(&SQ_PRED),
        Rule::NotZero => Entry::Plain(&NOT_ZERO),
        Rule::NotOne => Entry::Plain(&NOT_ONE),
        Rule::NotMul => Entry::Plain(&NOT_MUL),
        Rule::NotAdd => Entry::Plain(&NOT_ADD),
        Rule::NotSq => Entry::Plain(&NOT_SQ),
        Rule::SqNot => Entry::Plain(&SQ_NOT),
        Rule::NotSelf => Entry::Plain(&NOT_SELF),
        Rule::NotNot => Entry::Plain(&NOT_NOT),
        Rule::Split => Entry::Plain(&SPLIT),
        Rule::SumZero => Entry::Plain(&SUM_ZERO),
        Rule::SumAdd => Entry::Plain(&SUM_ADD),
        Rule::SumSwap => Entry::SumSwap,
        Rule::SumMul => Entry::Plain(&SUM_MUL),
        Rule::SumSq => Entry::Plain(&SUM_SQ),
        Rule::SumPoint => Entry::Plain(&SUM_POINT),
        Rule::SumUse => Entry::Plain(&SUM_USE),
        Rule::EqRefl => Entry::Plain(&EQ_REFL),
        Rule::EqSym => Entry::Plain(&EQ_SYM),
        Rule::EqSubst => Entry::Plain(&EQ_SUBST),
        Rule::EqSplit => Entry::Plain(&EQ_SPLIT),
        Rule::Key => Entry::Key,
        Rule::Fkey => Entry::Fkey,
    }
}
