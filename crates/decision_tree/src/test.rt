//! The tests of a column.

ghost use Rattle.std.specs.Prelude.{◌≡◌, ◌∷◌, OnOk, true};
ghost use Rattle.elm_canon.specs.Unions.{TupleUnion, ListUnion, alternatives};
ghost use Rattle.elm_meaning.specs.Seen as seen;
ghost use Rattle.js_tree.specs.Postorder.{Expression, trees_of, expression, top, below};
ghost use Rattle.js_emit.specs.Matrix as matrix;
ghost use Rattle.js_emit.specs.Matrix.{tests_of_union};
ghost use Rattle.js_emit.specs.Choice.{tag_js, test_js};
ghost use Rattle.decision_tree.specs.Views.{test_view, tests_view};
ghost use Rattle.decision_tree.specs.Marks.{mark_of, same_marks};

use elm_base::units::Units;
use elm_canon::tree::Literal;
use elm_canon::unions::{Alternative, Tag, Union, UnionShape};
use js_emit::push::push_literal;
use js_tree::tree::{Node, Operator};
use js_tree::trees::Trees;
use std::alloc::{AllocError, Global};

/// What is tested of a value.
#[derive(Clone, Copy)]
pub enum Test<'a> {
    Literal(&'a Literal),
    /// A tuple of so many parts.
    Tuple(usize),
    /// `[]`
    Empty,
    /// `::`
    Item,
    Constructor(&'a Union, &'a Alternative),
}

/// Whether two literals are the same. A character is a text.
fn same_literal(first: &Literal, second: &Literal) -> bool
    ensures { result ≡ matrix.same_literal first.now second.now }
{
    match (first, second) {
        (Literal::Int(m), Literal::Int(n)) => m == n,
        (Literal::Int(_), _) | (_, Literal::Int(_)) => false,
        (Literal::Char(us) | Literal::Text(us), Literal::Char(vs) | Literal::Text(vs)) => us == vs,
    }
}

/// Whether two tags are the same.
fn same_tag(first: Tag, second: Tag) -> bool
    ensures { result ≡ seen.same_tag first second }
{
    match (first, second) {
        (Tag::Number(m), Tag::Number(n)) => m == n,
        (Tag::Truth(a), Tag::Truth(b)) => a == b,
        (Tag::Blank, Tag::Blank) => true,
        _ => false,
    }
}

/// How many parts are left where the test holds.
#[tactic(auto, using(crate::proofs::Marks::tuple_arity))]
pub fn arity(test: Test<'_>) -> usize
    ensures { result ≡ matrix.arity_of (test_view test.entry) }
{
    match test {
        Test::Literal(_) | Test::Empty => 0,
        Test::Tuple(count) => count,
        Test::Item => 2,
        Test::Constructor(_, alternative) => alternative.arity,
    }
}

/// What tells a constructor.
#[derive(Clone, Copy)]
pub struct Mark {
    pub tag: Tag,
    pub arity: usize,
}

/// What tells the constructor that is tested, if it is one.
#[tactic(auto, using(crate::proofs::Marks::tuple_mark))]
fn mark_of(test: Test<'_>) -> Option<Mark>
    ensures { result ≡ mark_of (test_view test.entry) }
{
    match test {
        Test::Literal(_) => None,
        Test::Tuple(count) => {
            if count == 0 {
                Some(Mark {
                    tag: Tag::Blank,
                    arity: 0,
                })
            } else {
                Some(Mark {
                    tag: Tag::Number(0),
                    arity: count,
                })
            }
        }
        Test::Empty => Some(Mark {
            tag: Tag::Number(0),
            arity: 0,
        }),
        Test::Item => Some(Mark {
            tag: Tag::Number(1),
            arity: 2,
        }),
        Test::Constructor(_, alternative) => Some(Mark {
            tag: alternative.tag,
            arity: alternative.arity,
        }),
    }
}

/// Whether both are constructors, and the same.
fn same_marks(first: Option<Mark>, second: Option<Mark>) -> bool
    ensures { result ≡ same_marks first second }
{
    match (first, second) {
        (Some(m), Some(n)) => same_tag(m.tag, n.tag) && m.arity == n.arity,
        (None, _) | (_, None) => false,
    }
}

/// Whether two tests are the same.
#[tactic(auto, using(crate::proofs::Marks::same_tagged))]
pub fn same_test(first: Test<'_>, second: Test<'_>) -> bool
    ensures { result ≡ matrix.same_test (test_view first.entry) (test_view second.entry) }
{
    match first {
        Test::Literal(l) => match second {
            Test::Literal(m) => same_literal(l, m),
            Test::Tuple(_) | Test::Empty | Test::Item | Test::Constructor(_, _) => false,
        },
        Test::Tuple(_) | Test::Empty | Test::Item | Test::Constructor(_, _) => {
            same_marks(mark_of(first), mark_of(second))
        }
    }
}

/// Whether the test is among others.
pub fn has_test(test: Test<'_>, tests: &[Test<'_>]) -> bool
    ensures { result ≡ matrix.has_test (test_view test.entry) (tests_view tests.now) }
{
    for other in tests {
        if same_test(test, *other) {
            return true;
        }
    }
    false
}

/// Whether the constructor that a union has at the place that the test names is the one that is tested.
#[tactic(auto, using(crate::proofs::Marks::has_at))]
fn is_at_place(test: Test<'_>, union: &Union, alternatives: &[Alternative]) -> bool
    ensures { result ≡ true → matrix.has_test (test_view test.entry) (tests_of_union union.now alternatives.now)
        ≡ true }
{
    let Test::Constructor(_, own) = test else {
        return false;
    };
    let Tag::Number(number) = own.tag else {
        return false;
    };
    let Ok(place) = usize::try_from(number) else {
        return false;
    };
    if place < alternatives.len() {
        same_test(test, Test::Constructor(union, &alternatives[place]))
    } else {
        false
    }
}

/// Whether the test is of one of these constructors. In a declared union it stands at the place that it names.
fn is_one_of(test: Test<'_>, union: &Union, alternatives: &[Alternative]) -> bool
    ensures { result ≡ matrix.has_test (test_view test.entry) (tests_of_union union.now alternatives.now) }
{
    if is_at_place(test, union, alternatives) {
        return true;
    }
    for alternative in alternatives {
        if same_test(test, Test::Constructor(union, alternative)) {
            return true;
        }
    }
    false
}

/// Whether it is the test of `[]` or `::`.
#[tactic(auto, using(crate::proofs::Marks::if_same))]
fn is_of_list(test: Test<'_>) -> bool
    ensures { result ≡ matrix.has_test (test_view test.entry) (tests_of_union ListUnion (alternatives ListUnion)) }
{
    same_test(test, Test::Empty) || same_test(test, Test::Item)
}

/// Whether it is the test of tuples of so many parts.
#[tactic(auto, using(crate::proofs::Marks::if_same))]
fn is_of_tuples(test: Test<'_>, count: usize) -> bool
    ensures { result ≡ matrix.has_test (test_view test.entry)
        (tests_of_union (TupleUnion count) (alternatives (TupleUnion count))) }
{
    same_test(test, Test::Tuple(count))
}

/// Whether the test is of one of the constructors of the union.
fn is_of_union(test: Test<'_>, union: &Union) -> bool
    ensures { result ≡ matrix.has_test (test_view test.entry) (tests_of_union union.now (alternatives union.now)) }
{
    match union.shape() {
        UnionShape::Tuple(count) => is_of_tuples(test, *count),
        UnionShape::List => is_of_list(test),
        UnionShape::Declared(_, _, alternatives) => is_one_of(test, union, alternatives),
    }
}

/// Whether the second test may stand in one column with the first.
pub fn is_alike(first: Test<'_>, test: Test<'_>) -> bool
    ensures { result ≡ matrix.is_alike (test_view first.entry) (test_view test.entry) }
{
    match first {
        Test::Literal(_) => match test {
            Test::Literal(_) => true,
            Test::Tuple(_) | Test::Empty | Test::Item | Test::Constructor(_, _) => false,
        },
        Test::Tuple(count) => is_of_tuples(test, count),
        Test::Empty | Test::Item => is_of_list(test),
        Test::Constructor(union, _) => is_of_union(test, union),
    }
}

/// Whether each of these constructors is among the tests.
fn have_each(tests: &[Test<'_>], union: &Union, alternatives: &[Alternative]) -> bool
    ensures { result ≡ matrix.have_all (tests_view tests.now) (tests_of_union union.now alternatives.now) }
{
    for alternative in alternatives {
        if !has_test(Test::Constructor(union, alternative), tests) {
            return false;
        }
    }
    true
}

/// Whether `[]` and `::` are among the tests.
fn have_list(tests: &[Test<'_>]) -> bool
    ensures { result ≡ matrix.have_all (tests_view tests.now) (tests_of_union ListUnion (alternatives ListUnion)) }
{
    has_test(Test::Empty, tests) && has_test(Test::Item, tests)
}

/// Whether the test of tuples of so many parts is among the tests.
fn have_tuples(tests: &[Test<'_>], count: usize) -> bool
    ensures { result ≡ matrix.have_all (tests_view tests.now)
        (tests_of_union (TupleUnion count) (alternatives (TupleUnion count))) }
{
    has_test(Test::Tuple(count), tests)
}

/// Whether each constructor of the union is among the tests.
fn have_union(tests: &[Test<'_>], union: &Union) -> bool
    ensures { result ≡ matrix.have_all (tests_view tests.now) (tests_of_union union.now (alternatives union.now)) }
{
    match union.shape() {
        UnionShape::Tuple(count) => have_tuples(tests, *count),
        UnionShape::List => have_list(tests),
        UnionShape::Declared(_, _, alternatives) => have_each(tests, union, alternatives),
    }
}

/// Whether no other value is possible than those of the tests, of which the first is given.
pub fn is_whole(first: Test<'_>, tests: &[Test<'_>]) -> bool
    ensures { result ≡ matrix.is_whole (test_view first.entry) (tests_view tests.now) }
{
    match first {
        Test::Literal(_) => false,
        Test::Tuple(count) => have_tuples(tests, count),
        Test::Empty | Test::Item => have_list(tests),
        Test::Constructor(union, _) => have_union(tests, union),
    }
}

/// Makes the last tree the test of that tag.
fn push_tag(alloc: Global, trees: &mut Trees, tag: Tag) -> Result<(), AllocError>
    ensures { OnOk result (trees_of trees.new ≡ Expression (tag_js tag (expression (top (trees_of trees.old))))
        ∷ below (trees_of trees.old)) }
{
    match tag {
        Tag::Number(number) => {
            let name = Vec::from_slice(alloc, &[36u16])?;
            trees.push(Node::Property(Units::from_vec(name)))?;
            trees.push(Node::Int(number))?;
        }
        Tag::Truth(truth) => trees.push(Node::Bool(truth))?,
        Tag::Blank => trees.push(Node::Int(0))?,
    }
    trees.push(Node::Binary(Operator::StrictEquals))
}

/// Makes the last tree the test of what it is.
#[tactic(auto, using(crate::proofs::Marks::tuple_tag))]
pub fn push_test(alloc: Global, trees: &mut Trees, test: Test<'_>) -> Result<(), AllocError>
    ensures { OnOk result (trees_of trees.new
        ≡ Expression (test_js (test_view test.entry) (expression (top (trees_of trees.old))))
        ∷ below (trees_of trees.old)) }
{
    match test {
        Test::Literal(literal) => {
            push_literal(trees, literal)?;
            trees.push(Node::Binary(Operator::StrictEquals))
        }
        Test::Tuple(count) => {
            if count == 0 {
                push_tag(alloc, trees, Tag::Blank)
            } else {
                push_tag(alloc, trees, Tag::Number(0))
            }
        }
        Test::Empty => push_tag(alloc, trees, Tag::Number(0)),
        Test::Item => push_tag(alloc, trees, Tag::Number(1)),
        Test::Constructor(_, alternative) => push_tag(alloc, trees, alternative.tag),
    }
}
