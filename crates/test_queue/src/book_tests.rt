ghost use Rattle.std.specs.Prelude.{◌≡◌, ◌+◌, ◌*◌, ◌^◌, ◌<◌, IfOk};
ghost use Rattle.alog_policy.specs.BookAdds.{items_in, posts_in};
ghost use Rattle.alog_policy.specs.BookCalls.{IsSeatOf};

use crate::lane_tests::{is_so_many, says};
use crate::port_tests::{closes, has_lost, new_book};
use alog_policy::{ALL_PARTS, BookSeat, Counts, LossBook, SeatsOut};
use std::alloc::{AllocError, Global};
use std::process::Abort;
use std::thread::{self, Threads};

// A seat is out, and so it is not closed.
fn stays(rt: &impl Abort, alloc: Global, book: LossBook, seat: BookSeat) -> (LossBook, BookSeat)
    requires { IsSeatOf book seat }
    ensures same { result.0 ≡ book }
    ensures seat { IsSeatOf result.0 result.1 }
{
    match book.close(seat) {
        Ok(_) => panic!(rt; "a seat is out"),
        Err(out) => {
            says(
                rt,
                format!(in alloc; "{out}: {out:?}"),
                "not all seats are here: SeatsOut { .. }",
            );
            let SeatsOut { book, seat } = out;
            (book, seat)
        }
    }
}

// A book counts so much.
fn is_counted(
    rt: &impl Abort,
    found: Result<Option<Counts>, AllocError>,
    overrun: u64,
    discarded: u64,
) {
    match found {
        Ok(counts) => assert!(rt; counts == Some(Counts { overrun, discarded })),
        Err(AllocError) => panic!(rt; "out of memory"),
    }
}

#[test]
fn counts_losses(rt: HostRuntime) {
    let (book, mut seat) = new_book(&rt, rt.alloc());
    is_so_many(&rt, seat.parts(), ALL_PARTS);
    has_lost(&rt, &book, &mut seat, (0, 0));
    book.overran(&mut seat);
    has_lost(&rt, &book, &mut seat, (1, 0));
    book.discarded(&mut seat);
    book.discarded(&mut seat);
    has_lost(&rt, &book, &mut seat, (1, 2));
    closes(&rt, book, seat, (1, 2));
}

#[test]
fn seats_split_and_join(rt: HostRuntime) {
    let (book, mut seat) = new_book(&rt, rt.alloc());
    let mut other = book.split(&mut seat, 1);
    is_so_many(&rt, seat.parts(), ALL_PARTS - 1);
    is_so_many(&rt, other.parts(), 1);
    book.overran(&mut seat);
    book.discarded(&mut other);
    has_lost(&rt, &book, &mut other, (1, 1));
    let (book, mut seat) = stays(&rt, rt.alloc(), book, seat);
    book.join(&mut seat, other);
    is_so_many(&rt, seat.parts(), ALL_PARTS);
    closes(&rt, book, seat, (1, 1));
}

// Counts so many overrun items and twice as many discarded posts.
fn add_losses(book: &LossBook, mut seat: BookSeat, items: u64) -> BookSeat
    requires { IsSeatOf book.now seat }
    ensures seat { IsSeatOf book.now result }
    ensures kept { (result.known.parts ≡ seat.known.parts) × (result.known.joined ≡ seat.known.joined) }
    ensures overrun { items_in result.known.own ≡ items_in seat.known.own + items }
    ensures discarded { posts_in result.known.own ≡ posts_in seat.known.own + 2 * items }
{
    for _ in 0..items {
        book.overran(&mut seat);
        book.discarded(&mut seat);
        book.discarded(&mut seat);
    }
    seat
}

// What a book counts in the end where each of two threads adds so many losses is known from its contracts alone.
fn added_by_two(rt: &impl Threads, alloc: Global, items: u64) -> Result<Option<Counts>, AllocError>
    requires { items < 2 ^ 32 }
    ensures { IfOk result (λ c. c ≡ Some (record { overrun = 2 * items; discarded = 4 * items })) }
{
    let (book, mut seat) = LossBook::new(alloc)?;
    let shared = &book;
    let one = shared.split(&mut seat, 1);
    let two = shared.split(&mut seat, 1);
    let (one, two) = thread::join(
        rt,
        || -> BookSeat
            requires { IsSeatOf shared.now one }
            ensures seat { IsSeatOf shared.entry.now result }
            ensures kept { (result.known.parts ≡ one.known.parts) × (result.known.joined ≡ one.known.joined) }
            ensures overrun { items_in result.known.own ≡ items_in one.known.own + items }
            ensures discarded { posts_in result.known.own ≡ posts_in one.known.own + 2 * items }
        { add_losses(shared, one, items) },
        || -> BookSeat
            requires { IsSeatOf shared.now two }
            ensures seat { IsSeatOf shared.entry.now result }
            ensures kept { (result.known.parts ≡ two.known.parts) × (result.known.joined ≡ two.known.joined) }
            ensures overrun { items_in result.known.own ≡ items_in two.known.own + items }
            ensures discarded { posts_in result.known.own ≡ posts_in two.known.own + 2 * items }
        { add_losses(shared, two, items) },
    );
    shared.join(&mut seat, one);
    shared.join(&mut seat, two);
    Ok(book.close(seat).ok())
}

#[test]
fn two_threads_add(rt: HostRuntime) {
    let found = added_by_two(&rt, rt.alloc(), 10_000);
    is_counted(&rt, found, 20_000, 40_000);
}

// Where one seat has all parts, what its book counts is known from the contracts alone.
fn counted_alone(alloc: Global) -> Result<Option<Counts>, AllocError>
    ensures { IfOk result (λ c. c ≡ Some (record { overrun = 1; discarded = 2 })) }
{
    let (book, mut seat) = LossBook::new(alloc)?;
    book.overran(&mut seat);
    book.discarded(&mut seat);
    book.discarded(&mut seat);
    Ok(Some(book.counts(&mut seat)))
}

// A book to which nothing was added has no losses: its contracts say so.
fn closed_at_once(alloc: Global) -> Result<Option<Counts>, AllocError>
    ensures { IfOk result (λ c. c ≡ Some (record { overrun = 0; discarded = 0 })) }
{
    let (book, seat) = LossBook::new(alloc)?;
    Ok(book.close(seat).ok())
}

#[test]
fn a_lone_seat_counts_its_own(rt: HostRuntime) {
    is_counted(&rt, counted_alone(rt.alloc()), 1, 2);
    is_counted(&rt, closed_at_once(rt.alloc()), 0, 0);
}
