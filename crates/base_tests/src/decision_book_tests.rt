//! Worked books, the table of refusals in its order, and full books.

use crate::lines::decision;
use decision_book::{Book, Reply, ScriptBook};
use net_model::read_model;
use sample_models::ONE_DESK;
use sim_base::{Decision, Lists, Name, NoMemory};
use std::alloc::Global;
use std::sync::Arc;
use std::test::Fail;

/// The line of a decision, and the reply to it.
type Row = (&'static str, Reply);

/// A book of one desk, with no call.
fn begin_book(alloc: Global) -> Option<Book> {
    let model = read_model(alloc, ONE_DESK.as_bytes()).ok()?;
    let model = Arc::new(alloc, model).ok()?;
    Book::begin(alloc, model).ok()
}

/// Raises the front, if that is allowed.
fn raise(book: &mut Book, front: u64) -> bool {
    front > book.front() && front <= book.model().horizon() && book.advance(front).is_ok()
}

/// Whether the book's front can be raised to each of these, one after the other.
fn raise_all(book: &mut Book, fronts: &[u64]) -> bool {
    for front in fronts {
        if !raise(book, *front) {
            return false;
        }
    }
    true
}

/// The place of the first decision with another reply than its row has, or the number of rows.
fn first_wrong(alloc: Global, book: &mut Book, rows: &[Row]) -> usize {
    for (i, (line, reply)) in rows.iter().enumerate() {
        let Some(decision) = decision(alloc, line) else {
            return i;
        };
        if book.decide(1, decision) != *reply {
            return i;
        }
    }
    rows.len()
}

/// Whether the book has this number of calls, each after this number of fronts.
fn have_fronts(book: &Book, fronts: u32, calls: usize) -> bool {
    for call in book.calls() {
        if call.fronts != fronts {
            return false;
        }
    }
    book.calls().len() == calls
}

/// A set at the front is accepted, and one just before it is late.
const AT_TEN: &[Row] = &[
    ("fork fast from base", Reply::Accepted),
    ("set fast at 10 desk service 2 2", Reply::Accepted),
    ("set fast at 9 desk service 2 2", Reply::Late { front: 10 }),
];

#[test]
fn decisions_during_a_run(rt: HostRuntime) -> Result<(), Fail> {
    let mut book = begin_book(rt.alloc()).ok_or(NoMemory)?;
    assert!(rt; raise_all(&mut book, &[5, 7, 10]));
    assert!(rt; first_wrong(rt.alloc(), &mut book, AT_TEN) == AT_TEN.len());
    assert!(rt; raise_all(&mut book, &[13, 15, 17, 20]));
    assert!(rt; have_fronts(&book, 3, 3) && book.lists().len() == 2);
    assert!(rt; book.fronts() == [5, 7, 10, 13, 15, 17, 20].as_slice() && book.front() == 20);
    Ok(())
}

/// Whether a book at the horizon refuses a decision and a front.
fn is_closed(book: &mut Book, decision: &Decision) -> bool {
    if book.decide(1, *decision) != Reply::Closed {
        return false;
    }
    let more = book.ask(2, decision);
    more == (Reply::Closed, book.calls().last().copied()) && have_fronts(book, 2, 2)
}

#[test]
fn a_book_at_the_horizon_is_closed(rt: HostRuntime) -> Result<(), Fail> {
    let fork = decision(rt.alloc(), "fork x from base").expect(&rt, "a decision");
    let mut book = begin_book(rt.alloc()).ok_or(NoMemory)?;
    assert!(rt; raise_all(&mut book, &[5, 20]) && is_closed(&mut book, &fork));
    Ok(())
}

fn digit(d: u32) -> u8 {
    b'0' + (d % 10) as u8
}

/// A fork of the base with a name of four bytes, a different one for each number below 1,000.
fn fork_of_number(n: u32) -> Option<Decision> {
    let new = Name::read(&[b'c', digit(n / 100), digit(n / 10), digit(n)])?;
    let old = Name::read(b"base")?;
    Some(Decision::Fork { new, old })
}

/// Forks the base this number of times.
fn forks(book: &mut Book, count: u32) -> bool {
    for n in 0..count {
        let Some(fork) = fork_of_number(n) else {
            return false;
        };
        if book.decide(2, fork) != Reply::Accepted {
            return false;
        }
    }
    true
}

/// Makes the same decision this number of times. Returns whether each has this reply.
fn repeat(book: &mut Book, decision: &Decision, count: u32, reply: Reply) -> bool {
    for _ in 0..count {
        if book.decide(3, *decision) != reply {
            return false;
        }
    }
    true
}

/// The first decisions on a crowded book.
const FIRST: &[Row] = &[
    ("fork late from base", Reply::Accepted),
    ("fork over from base", Reply::Accepted),
    ("end over at 12", Reply::Accepted),
];

/// Fills a book with 256 clones: `base` with 256 decisions, `late` with none, `over` with an end, and others.
fn crowd(alloc: Global, book: &mut Book) -> bool {
    let Some(set) = decision(alloc, "set base at 15 desk service 2 2") else {
        return false;
    };
    first_wrong(alloc, book, FIRST) == FIRST.len()
        && repeat(book, &set, 256, Reply::Accepted)
        && forks(book, 253)
}

/// Decisions for a crowded book at front 10, by the first refusal that applies. Each also meets the condition of the
/// next refusal in this table, or of a later one. In the first six a name decides; in the others all names are known.
const REFUSED: &[Row] = &[
    ("set ghost at 9 nowhere service 0 0", Reply::UnknownClone),
    ("fork base from over", Reply::Ended { at: 12 }),
    (
        "set over at 25 nowhere service 0 0",
        Reply::Ended { at: 12 },
    ),
    ("fork late from base", Reply::NameTaken),
    ("fork fresh from base", Reply::TooManyClones),
    ("set base at 25 nowhere service 0 0", Reply::UnknownStation),
    ("set base at 25 gate service 0 0", Reply::WrongParameter),
    ("set base at 25 desk service 0 0", Reply::OutOfRange),
    ("set base at 25 desk service 2 2", Reply::ListFull),
    ("set late at 20 desk service 2 2", Reply::PastHorizon),
    ("end base at 20", Reply::PastHorizon),
    ("set late at 9 desk service 2 2", Reply::Late { front: 10 }),
    ("end base at 9", Reply::Late { front: 10 }),
];

/// The numbers of those replies.
const NUMBERS: &[u32] = &[3, 12, 12, 4, 5, 6, 7, 8, 9, 10, 10, 11, 11];

/// Decisions that are accepted.
const ACCEPTED: &[Row] = &[
    ("set late at 10 desk service 2 2", Reply::Accepted),
    ("set late at 19 desk service 2 2", Reply::Accepted),
    ("end base at 19", Reply::Accepted),
];

/// Whether the replies of a table have these numbers, in the order of the table.
fn have_numbers(rows: &[Row], numbers: &[u32]) -> bool {
    for (i, (_, reply)) in rows.iter().enumerate() {
        if numbers.get(i) != Some(&reply.number()) {
            return false;
        }
    }
    true
}

/// The number of clones, and the number of decisions and the end of the first.
fn first_clone(book: &Book) -> (u32, usize, Option<u64>) {
    let lists = book.lists();
    let count = lists.len();
    (count, lists.list(0).len(), lists.end_of(0))
}

#[test]
fn refusals_in_their_order(rt: HostRuntime) -> Result<(), Fail> {
    assert!(rt; have_numbers(REFUSED, NUMBERS));
    let mut book = begin_book(rt.alloc()).ok_or(NoMemory)?;
    assert!(rt; crowd(rt.alloc(), &mut book) && raise(&mut book, 10));
    assert_eq!(rt; first_wrong(rt.alloc(), &mut book, REFUSED), REFUSED.len());
    assert!(rt; first_clone(&book) == (256, 256, None));
    assert_eq!(rt;
        first_wrong(rt.alloc(), &mut book, ACCEPTED),
        ACCEPTED.len()
    );
    assert!(rt; first_clone(&book) == (256, 256, Some(19)));
    Ok(())
}

/// Whether a full book takes no further call.
fn is_full(book: &mut Book, decision: &Decision) -> bool {
    book.decide(3, *decision) == Reply::Full
        && book.ask(3, decision) == (Reply::Full, None)
        && book.calls().len() == 4096
}

#[test]
fn a_full_book(rt: HostRuntime) -> Result<(), Fail> {
    let fork = decision(rt.alloc(), "fork fresh from nobody").expect(&rt, "a decision");
    let mut book = begin_book(rt.alloc()).ok_or(NoMemory)?;
    assert!(rt; raise(&mut book, 20) && repeat(&mut book, &fork, 4096, Reply::Closed));
    assert!(rt; is_full(&mut book, &fork));
    Ok(())
}

/// After 4,096 refused decisions there is no room for one that the book would accept.
#[test]
fn a_book_full_of_refusals(rt: HostRuntime) -> Result<(), Fail> {
    let unknown = decision(rt.alloc(), "fork fresh from nobody").expect(&rt, "a decision");
    let fork = decision(rt.alloc(), "fork fresh from base").expect(&rt, "a decision");
    let mut book = begin_book(rt.alloc()).ok_or(NoMemory)?;
    assert!(rt; repeat(&mut book, &unknown, 4096, Reply::UnknownClone));
    assert!(rt; is_full(&mut book, &fork) && book.lists().len() == 1);
    Ok(())
}

/// The decisions of a small script.
const SCRIPT: &[Row] = &[
    ("set base at 5 desk service 2 2", Reply::Accepted),
    ("fork fast from base", Reply::Accepted),
    ("set fast at 10 desk service 2 2", Reply::Accepted),
    ("fork late from fast", Reply::Accepted),
    ("fork late from base", Reply::NameTaken),
    ("set base at 7 desk service 3 3", Reply::Accepted),
    ("end base at 15", Reply::Accepted),
    ("set base at 16 desk service 2 2", Reply::Ended { at: 15 }),
];

/// The book of a script of one desk, with no call.
fn begin_script(alloc: Global) -> Option<ScriptBook> {
    let model = read_model(alloc, ONE_DESK.as_bytes()).ok()?;
    let model = Arc::new(alloc, model).ok()?;
    ScriptBook::begin(alloc, model).ok()
}

/// The place of the first decision of a script with another reply than its row has, or the number of rows.
fn first_wrong_in_script(alloc: Global, book: &mut ScriptBook, rows: &[Row]) -> usize {
    for (i, (line, reply)) in rows.iter().enumerate() {
        let Some(decision) = decision(alloc, line) else {
            return i;
        };
        if book.decide(1, decision) != Ok(*reply) {
            return i;
        }
    }
    rows.len()
}

/// Whether a clone has the same name, decisions and end in both.
fn has_same(lists: &Lists, others: &Lists, c: u32) -> bool {
    c < lists.len()
        && c < others.len()
        && lists.name(c) == others.name(c)
        && lists.list(c) == others.list(c)
        && lists.end_of(c) == others.end_of(c)
}

/// Whether the same clones are in both.
fn are_same(lists: &Lists, others: &Lists) -> bool {
    for c in 0..lists.len() {
        if !has_same(lists, others, c) {
            return false;
        }
    }
    lists.len() == others.len()
}

#[test]
fn a_book_of_a_script_has_the_same_lists(rt: HostRuntime) -> Result<(), Fail> {
    let mut book = begin_book(rt.alloc()).ok_or(NoMemory)?;
    assert_eq!(rt; first_wrong(rt.alloc(), &mut book, SCRIPT), SCRIPT.len());
    let mut script = begin_script(rt.alloc()).ok_or(NoMemory)?;
    assert_eq!(rt;
        first_wrong_in_script(rt.alloc(), &mut script, SCRIPT),
        SCRIPT.len()
    );
    assert!(rt; book.lists().len() == 3 && are_same(script.lists(), book.lists()));
    assert!(rt; script.calls() == book.calls());
    Ok(())
}
