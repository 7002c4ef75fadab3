ghost use Rattle.std.specs.Prelude.{◌≡◌, ◌<◌, None, [], ◌∷◌, IsSome, IfSome, IfNone, IfOk};
ghost use Rattle.alog_ring.specs.Known.{IsPassOf, first_known};

use alog_ring::{ALL_PARTS, Limit, NewError, Pass, PassesOut, PopError, PushError, Ring};
use std::alloc::Global;
use std::process::Abort;
use std::sync::Wait;
use std::sync::atomic::{AtomicU64, Ordering};

/// Why there is no such ring, if there is none.
fn refusal(alloc: Global, places: usize, first: u64) -> Option<NewError> {
    Ring::<u64>::new(alloc, places, first).err()
}

/// Places and first tickets, and why there is no such ring.
const SIZES: [(usize, u64, Option<NewError>); 9] = [
    (0, 0, Some(NewError::BadSize)),
    (1, 0, Some(NewError::BadSize)),
    (3, 0, Some(NewError::BadSize)),
    (131_072, 0, Some(NewError::BadSize)),
    (3, 1 << 62, Some(NewError::BadSize)),
    (2, 1 << 62, Some(NewError::BadFirst)),
    (2, (1 << 62) - 1, None),
    (32_768, 0, None),
    (65_536, 0, None),
];

#[test]
fn takes_sizes_and_first_tickets(rt: HostRuntime) {
    for (places, first, refused) in &SIZES {
        let found = refusal(rt.alloc(), *places, *first);
        assert!(rt; found != Some(NewError::OutOfMemory), "out of memory");
        assert!(rt; found == *refused);
    }
}

// A ring of numbers, and its first pass.
pub(crate) fn ring_of<T>(
    rt: &impl Abort,
    alloc: Global,
    places: usize,
    first: u64,
) -> (Ring<T>, Pass<T>)
    ensures ring { IsPassOf result.0 result.1 }
    ensures first { result.1.known ≡ first_known places first }
{
    match Ring::new(alloc, places, first) {
        Ok(made) => made,
        Err(NewError::OutOfMemory) => panic!(rt; "out of memory"),
        Err(_) => panic!(rt; "no such ring"),
    }
}

/// What a push answers: its ticket, or the next ticket of a ring that is full, or none where none is left. The value comes back.
pub(crate) type Pushed = Result<u64, Option<u64>>;

/// What is brought, and what is answered; or what a pop answers.
#[derive(Clone, Copy)]
pub(crate) enum Deed {
    Push(u64, Pushed),
    Pop(Result<(u64, u64), PopError>),
}

/// Whether a push of this value answers so.
pub(crate) fn is_told(answer: &Result<u64, PushError<u64>>, own: u64, wanted: Pushed) -> bool {
    match (answer, wanted) {
        (Ok(ticket), Ok(wanted)) => *ticket == wanted,
        (Err(PushError::Full { value, next }), Err(Some(wanted))) => {
            *value == own && *next == wanted
        }
        (Err(PushError::Spent { value }), Err(None)) => *value == own,
        _ => false,
    }
}

/// One round of a push answers so.
fn pushes(rt: &impl Abort, ring: &Ring<u64>, pass: &mut Pass<u64>, value: u64, wanted: Pushed)
    requires { IsPassOf ring.now pass.old }
    ensures { IsPassOf ring.now pass.new }
{
    let answer = ring.push_once(pass, value);
    assert!(rt; is_told(&answer, value, wanted));
}

/// One round of a pop answers so.
fn pops(
    rt: &impl Abort,
    ring: &Ring<u64>,
    pass: &mut Pass<u64>,
    wanted: Result<(u64, u64), PopError>,
)
    requires { IsPassOf ring.now pass.old }
    ensures { IsPassOf ring.now pass.new }
{
    assert!(rt; ring.pop_once(pass) == wanted);
}

/// Rounds of pushes and pops answer so.
pub(crate) fn goes_on(rt: &impl Abort, ring: &Ring<u64>, pass: &mut Pass<u64>, deeds: &[Deed])
    requires { IsPassOf ring.now pass.old }
    ensures { IsPassOf ring.now pass.new }
{
    for deed in deeds {
        match *deed {
            Deed::Push(value, wanted) => pushes(rt, ring, pass, value, wanted),
            Deed::Pop(wanted) => pops(rt, ring, pass, wanted),
        }
    }
}

// A pass is out, and so the ring is not closed.
pub(crate) fn stays(rt: &impl Abort, ring: Ring<u64>, pass: Pass<u64>) -> (Ring<u64>, Pass<u64>)
    requires { IsPassOf ring pass }
    ensures same { result.0 ≡ ring }
    ensures pass { IsPassOf result.0 result.1 }
{
    match ring.close(pass) {
        Ok(_) => panic!(rt; "a pass is out"),
        Err(PassesOut { ring, pass }) => (ring, pass),
    }
}

// No pass is out, and this is left in the ring.
pub(crate) fn leaves<L: Limit<u64> + Drop>(
    rt: &impl Abort,
    ring: Ring<u64, L>,
    pass: Pass<u64>,
    wanted: &[(u64, u64)],
)
    requires { IsPassOf ring pass }
{
    match ring.close(pass) {
        Ok(left) => assert!(rt; left.as_slice() == wanted),
        Err(_) => panic!(rt; "no pass is out"),
    }
}

// The pass has so many parts of its ring, and has all of them or not.
pub(crate) fn has_parts(rt: &impl Abort, ring: &Ring<u64>, pass: &mut Pass<u64>, parts: u64)
    requires { IsPassOf ring.now pass.old }
    ensures { IsPassOf ring.now pass.new }
{
    assert!(rt; pass.parts() == parts && ring.is_whole(pass) == (parts == ALL_PARTS));
}

/// The ring has so many places.
fn has_places(rt: &impl Abort, ring: &Ring<u64>, places: usize) {
    assert!(rt; ring.places() == places);
}

const ROUNDS: [Deed; 4] = [
    Deed::Push(7, Ok(5)),
    Deed::Push(8, Ok(6)),
    Deed::Push(9, Err(Some(7))),
    Deed::Pop(Ok((5, 7))),
];

#[test]
fn a_ring_of_two(rt: HostRuntime) {
    let (ring, mut pass) = ring_of(&rt, rt.alloc(), 2, 5);
    let mut other = ring.split(&mut pass, 1);
    has_places(&rt, &ring, 2);
    goes_on(&rt, &ring, &mut pass, &ROUNDS);
    ring.meet(&mut pass, &mut other);
    has_parts(&rt, &ring, &mut pass, ALL_PARTS - 1);
    has_parts(&rt, &ring, &mut other, 1);
    let (ring, mut pass) = stays(&rt, ring, pass);
    ring.join(&mut pass, other);
    has_parts(&rt, &ring, &mut pass, ALL_PARTS);
    leaves(&rt, ring, pass, &[(6, 8)]);
}

/// Pushes with waiting: the last ticket of all is given, and then there is none.
fn push_at_last(rt: &(impl Abort + Wait), ring: &Ring<u64>, pass: &mut Pass<u64>, last: u64)
    requires { IsPassOf ring.now pass.old }
    ensures { IsPassOf ring.now pass.new }
{
    for (value, wanted) in [(1, Ok(last)), (2, Err(None))] {
        let answer = ring.push(rt, pass, value);
        assert!(rt; is_told(&answer, value, wanted));
    }
}

/// Pops with waiting: the value of the last ticket, and then none.
fn pop_at_last(rt: &(impl Abort + Wait), ring: &Ring<u64>, pass: &mut Pass<u64>, last: u64)
    requires { IsPassOf ring.now pass.old }
    ensures { IsPassOf ring.now pass.new }
{
    for wanted in [Ok((last, 1)), Err(PopError::Idle { next: 1 << 62 })] {
        assert!(rt; ring.pop(rt, pass) == wanted);
    }
}

#[test]
fn the_last_ticket_of_all(rt: HostRuntime) {
    let last = (1 << 62) - 1;
    let (ring, mut pass) = ring_of(&rt, rt.alloc(), 2, last);
    push_at_last(&rt, &ring, &mut pass, last);
    pop_at_last(&rt, &ring, &mut pass, last);
}

// A ring that is made and closed: nothing is left in it.
fn made_and_closed(alloc: Global, places: usize, first: u64) -> Result<Vec<(u64, u64)>, NewError>
    ensures { IfOk result (λ left. left.items ≡ []) }
{
    let (ring, pass) = Ring::<u64>::new(alloc, places, first)?;
    let Ok(left) = ring.close(pass) else {
        unreachable!()
    };
    Ok(left)
}

// A ring into which a lone pass pushes one value: the push goes through, and exactly that value is left.
fn one_value_left(
    alloc: Global,
    places: usize,
    first: u64,
    value: u64,
) -> Result<Vec<(u64, u64)>, NewError>
    ensures { IfOk result (λ left. left.items ≡ (first, value) ∷ []) }
{
    let (ring, mut pass) = Ring::<u64>::new(alloc, places, first)?;
    let pushed = ring.push_once(&mut pass, value);
    let Ok(left) = ring.close(pass) else {
        unreachable!()
    };
    match pushed {
        Ok(_) => Ok(left),
        Err(_) => unreachable!(),
    }
}

/// This is left in a ring.
fn has_left(rt: &impl Abort, left: Result<Vec<(u64, u64)>, NewError>, wanted: &[(u64, u64)]) {
    match left {
        Ok(left) => assert!(rt; left.as_slice() == wanted),
        Err(NewError::OutOfMemory) => panic!(rt; "out of memory"),
        Err(_) => panic!(rt; "no such ring"),
    }
}

#[test]
fn a_lone_pass_closes_what_it_made(rt: HostRuntime) {
    has_left(&rt, made_and_closed(rt.alloc(), 2, 7), &[]);
    has_left(&rt, one_value_left(rt.alloc(), 2, 7, 40), &[(7, 40)]);
}

/// Whether a push of this value out of a hand gets this ticket, or finds the ring full, with this next ticket: the hand is empty then, or
/// keeps it.
fn hands_in(ring: &Ring<u64>, pass: &mut Pass<u64>, value: u64, wanted: Result<u64, u64>) -> bool
    requires { IsPassOf ring.now pass.old }
    ensures { IsPassOf ring.now pass.new }
{
    let mut hand = Some(value);
    match (ring.push_from(pass, &mut hand), wanted) {
        (Ok(ticket), Ok(wanted)) => ticket == wanted && hand.is_none(),
        (Err(PushError::Full { value: (), next }), Err(wanted)) => {
            next == wanted && hand == Some(value)
        }
        _ => false,
    }
}

fn hand_in_each(rt: &impl Abort, ring: &Ring<u64>, pass: &mut Pass<u64>)
    requires { IsPassOf ring.now pass.old }
    ensures { IsPassOf ring.now pass.new }
{
    for (value, wanted) in [(7, Ok(5)), (8, Ok(6)), (9, Err(7))] {
        assert!(rt; hands_in(ring, pass, value, wanted));
    }
}

#[test]
fn a_hand_is_emptied_once(rt: HostRuntime) {
    let (ring, mut pass) = ring_of(&rt, rt.alloc(), 2, 5);
    hand_in_each(&rt, &ring, &mut pass);
    leaves(&rt, ring, pass, &[(5, 7), (6, 8)]);
}

/// Whether a pop into a hand, with or without waiting, gets this ticket and value, or none.
fn hands_out(
    rt: &impl Wait,
    ring: &Ring<u64>,
    pass: &mut Pass<u64>,
    is_waiting: bool,
    wanted: Result<(u64, u64), PopError>,
) -> bool
    requires { IsPassOf ring.now pass.old }
    ensures { IsPassOf ring.now pass.new }
{
    let mut hand = None;
    let told = if is_waiting {
        ring.pop_into(rt, pass, &mut hand)
    } else {
        ring.pop_once_into(pass, &mut hand)
    };
    match wanted {
        Ok((ticket, value)) => told == Ok(ticket) && hand == Some(value),
        Err(error) => told == Err(error) && hand.is_none(),
    }
}

/// Whether pops wait, and what they get.
type Handed = (bool, Result<(u64, u64), PopError>);

fn hand_out_each(rt: &(impl Abort + Wait), ring: &Ring<u64>, pass: &mut Pass<u64>, pops: &[Handed])
    requires { IsPassOf ring.now pass.old }
    ensures { IsPassOf ring.now pass.new }
{
    for (is_waiting, wanted) in pops {
        assert!(rt; hands_out(rt, ring, pass, *is_waiting, *wanted));
    }
}

const TWO_PUSHES: [Deed; 2] = [Deed::Push(7, Ok(5)), Deed::Push(8, Ok(6))];

const NO_POP: [Handed; 1] = [(false, Err(PopError::Idle { next: 5 }))];

const POPS: [Handed; 3] = [
    (false, Ok((5, 7))),
    (true, Ok((6, 8))),
    (true, Err(PopError::Idle { next: 7 })),
];

#[test]
fn a_hand_is_filled(rt: HostRuntime) {
    let (ring, mut pass) = ring_of(&rt, rt.alloc(), 2, 5);
    hand_out_each(&rt, &ring, &mut pass, &NO_POP);
    goes_on(&rt, &ring, &mut pass, &TWO_PUSHES);
    hand_out_each(&rt, &ring, &mut pass, &POPS);
}

// A drop writes its digit behind those of the drops before.
struct Noted<'a>(&'a AtomicU64, u64);

impl<'a> Drop for Noted<'a> {
    fn drop(self) {
        let Self(drops, digit) = self;
        let before = drops.load(Ordering::SeqCst);
        drops.store(
            before.wrapping_mul(10).wrapping_add(digit),
            Ordering::SeqCst,
        );
    }
}

// Three values are brought to a ring of two, which refuses the third, and the first is taken.
fn bring_three<'a>(ring: &Ring<Noted<'a>>, pass: &mut Pass<Noted<'a>>, drops: &'a AtomicU64) -> u64
    requires { IsPassOf ring.now pass.old }
    ensures { IsPassOf ring.now pass.new }
{
    drop(ring.push_once(pass, Noted(drops, 1)));
    drop(ring.push_once(pass, Noted(drops, 2)));
    drop(ring.push_once(pass, Noted(drops, 3)));
    let refused = drops.load(Ordering::SeqCst);
    drop(ring.pop_once(pass));
    refused
}

// What is left is dropped with its ring, or given back at its end.
fn drops_once(rt: &impl Abort, alloc: Global, is_closed: bool) {
    let drops = AtomicU64::new(0);
    let (ring, mut pass) = ring_of(rt, alloc, 2, 0);
    let refused = bring_three(&ring, &mut pass, &drops);
    let taken = drops.load(Ordering::SeqCst);
    if is_closed {
        drop(ring.close(pass));
    } else {
        drop(ring);
    }
    assert!(rt; (refused, taken, drops.load(Ordering::SeqCst)) == (3, 31, 312));
}

#[test]
fn drops_each_value_once(rt: HostRuntime) {
    for is_closed in [false, true] {
        drops_once(&rt, rt.alloc(), is_closed);
    }
}

// Numbers of one digit.
#[derive(Clone, Copy, Drop)]
struct Small;

impl Limit<u64> for Small {
    ghost use Rattle.std.specs.Prelude.{◌<◌};

    ghost admits = { λ limit x. x < 10 };
}

// What is brought keeps to the limit, and so does what comes out.
fn through(ring: &Ring<u64, Small>, pass: &mut Pass<u64>, value: u64) -> Option<u64>
    requires ring { IsPassOf ring.now pass.old }
    requires small { value < 10 }
    ensures ring { IsPassOf ring.now pass.new }
    ensures small { IfSome result (λ x. x < 10) }
{
    let _ = ring.push_once(pass, value);
    ring.pop_once(pass).ok().map(|(_, out)| out)
}

// The numbers 9 and 3 are brought, and the 9 is taken.
fn bring_small(rt: &impl Abort, ring: &Ring<u64, Small>, pass: &mut Pass<u64>)
    requires { IsPassOf ring.now pass.old }
    ensures { IsPassOf ring.now pass.new }
{
    assert!(rt; through(ring, pass, 9) == Some(9));
    assert!(rt; ring.push_once(pass, 3).is_ok());
}

#[test]
fn a_ring_of_small_numbers(rt: HostRuntime) {
    let Ok((ring, mut pass)) = Ring::limited(rt.alloc(), 2, 0, Small) else {
        panic!(rt; "out of memory")
    };
    bring_small(&rt, &ring, &mut pass);
    leaves(&rt, ring, pass, &[(1, 3)]);
}
