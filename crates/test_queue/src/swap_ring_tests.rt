//! Values that are swapped through the places of a ring.
ghost use Rattle.std.specs.Prelude.{◌≡◌, ◌<◌, IfSome};
ghost use Rattle.alog_ring.specs.Known.{IsPassOf, first_known};

use alog_ring::{
    ALL_PARTS, Limit, NewError, PushError, SwapNewError, SwapPass, SwapPassesOut, SwapPopError,
    SwapRing, Whole,
};
use std::alloc::Global;
use std::process::Abort;

// A swap ring with these spares, and its first pass.
pub(crate) fn swap_ring_of(
    rt: &impl Abort,
    places: usize,
    first: u64,
    spares: Vec<u64>,
    alloc: Global,
) -> (SwapRing<u64>, SwapPass<u64>)
    ensures ring { IsPassOf result.0.ring result.1 }
    ensures first { result.1.known ≡ first_known places first }
{
    match SwapRing::<u64>::new(alloc, places, first, spares) {
        Ok(made) => made,
        Err(
            SwapNewError {
                why: NewError::OutOfMemory,
                ..
            },
        ) => panic!(rt; "out of memory"),
        Err(_) => panic!(rt; "no such swap ring"),
    }
}

/// What is brought, and what is got for it: a ticket and the spare or the value; or the next ticket of a full ring, or the front ticket of
/// an idle one. What is refused comes back.
#[derive(Clone, Copy)]
pub(crate) enum Deed {
    In(u64, Result<(u64, u64), u64>),
    Out(u64, Result<(u64, u64), u64>),
}

/// Whether a round answers so.
fn is_told(ring: &SwapRing<u64>, pass: &mut SwapPass<u64>, deed: Deed) -> bool
    requires { IsPassOf ring.now.ring pass.old }
    ensures { IsPassOf ring.now.ring pass.new }
{
    match deed {
        Deed::In(own, wanted) => match ring.push_swap(pass, own) {
            Ok(got) => wanted == Ok(got),
            Err(PushError::Full { value, next }) => value == own && wanted == Err(next),
            Err(_) => false,
        },
        Deed::Out(own, wanted) => match ring.pop_swap(pass, own) {
            Ok(got) => wanted == Ok(got),
            Err(SwapPopError::Idle { next, spare }) => spare == own && wanted == Err(next),
            Err(_) => false,
        },
    }
}

/// Rounds answer so, one after another.
pub(crate) fn goes_on(
    rt: &impl Abort,
    ring: &SwapRing<u64>,
    pass: &mut SwapPass<u64>,
    deeds: &[Deed],
)
    requires { IsPassOf ring.now.ring pass.old }
    ensures { IsPassOf ring.now.ring pass.new }
{
    for deed in deeds {
        assert!(rt; is_told(ring, pass, *deed));
    }
}

// The pass has so many parts of its ring, and has all of them or not.
fn has_parts(rt: &impl Abort, ring: &SwapRing<u64>, pass: &mut SwapPass<u64>, parts: u64)
    requires { IsPassOf ring.now.ring pass.old }
    ensures { IsPassOf ring.now.ring pass.new }
{
    assert!(rt; pass.parts() == parts && ring.is_whole(pass) == (parts == ALL_PARTS));
}

// A pass is out, and so the ring is not closed.
fn stays(
    rt: &impl Abort,
    ring: SwapRing<u64>,
    pass: SwapPass<u64>,
) -> (SwapRing<u64>, SwapPass<u64>)
    requires { IsPassOf ring.ring pass }
    ensures same { result.0 ≡ ring }
    ensures pass { IsPassOf result.0.ring result.1 }
{
    match ring.close(pass) {
        Ok(_) => panic!(rt; "a pass is out"),
        Err(SwapPassesOut { ring, pass }) => (ring, pass),
    }
}

// No pass is out, and these cells and spares are left in the ring.
pub(crate) fn leaves(
    rt: &impl Abort,
    ring: SwapRing<u64>,
    pass: SwapPass<u64>,
    cells: &[(u64, u64)],
    spares: &[u64],
)
    requires { IsPassOf ring.ring pass }
{
    match ring.close(pass) {
        Ok((left, back)) => {
            assert!(rt; left.as_slice() == cells && back.as_slice() == spares);
        }
        Err(_) => panic!(rt; "no pass is out"),
    }
}

/// These numbers.
pub(crate) fn list(rt: &impl Abort, alloc: Global, numbers: &[u64]) -> Vec<u64> {
    match Vec::from_slice(alloc, numbers) {
        Ok(list) => list,
        Err(_) => panic!(rt; "out of memory"),
    }
}

/// Why there is no ring with these spares, and how many come back, if there is none.
fn refusal(
    places: usize,
    first: u64,
    spares: Vec<u64>,
    alloc: Global,
) -> Option<(NewError, usize)> {
    match SwapRing::<u64>::new(alloc, places, first, spares) {
        Ok(_) => None,
        Err(SwapNewError { why, spares }) => Some((why, spares.len())),
    }
}

/// Places, first tickets and spares, and why there is no such ring.
const SIZES: [(usize, u64, &[u64], Option<(NewError, usize)>); 6] = [
    (2, 5, &[100], Some((NewError::BadSize, 1))),
    (2, 5, &[100, 100, 100], Some((NewError::BadSize, 3))),
    (3, 5, &[100, 100, 100], Some((NewError::BadSize, 3))),
    (2, 1 << 62, &[100], Some((NewError::BadSize, 1))),
    (2, 1 << 62, &[100, 100], Some((NewError::BadFirst, 2))),
    (2, (1 << 62) - 1, &[100, 100], None),
];

#[test]
fn a_swap_ring_takes_a_spare_for_each_place(rt: HostRuntime) {
    for (places, first, spares, refused) in &SIZES {
        let spares = list(&rt, rt.alloc(), spares);
        let count = spares.len();
        let found = refusal(*places, *first, spares, rt.alloc());
        assert!(rt;
            found != Some((NewError::OutOfMemory, count)),
            "out of memory"
        );
        assert!(rt; found == *refused);
    }
}

/// The ring has so many places.
fn has_places(rt: &impl Abort, ring: &SwapRing<u64>, places: usize) {
    assert!(rt; ring.places() == places);
}

const ROUNDS: [Deed; 4] = [
    Deed::In(7, Ok((5, 101))),
    Deed::In(8, Ok((6, 100))),
    Deed::In(9, Err(7)),
    Deed::Out(102, Ok((5, 7))),
];

#[test]
fn a_swap_ring_of_two(rt: HostRuntime) {
    let spares = list(&rt, rt.alloc(), &[100, 101]);
    let (ring, mut pass) = swap_ring_of(&rt, 2, 5, spares, rt.alloc());
    has_places(&rt, &ring, 2);
    let mut other = ring.split(&mut pass, 1);
    goes_on(&rt, &ring, &mut pass, &ROUNDS);
    ring.meet(&mut pass, &mut other);
    has_parts(&rt, &ring, &mut pass, ALL_PARTS - 1);
    has_parts(&rt, &ring, &mut other, 1);
    let (ring, mut pass) = stays(&rt, ring, pass);
    ring.join(&mut pass, other);
    has_parts(&rt, &ring, &mut pass, ALL_PARTS);
    leaves(&rt, ring, pass, &[(6, 8)], &[102]);
}

const GOING_ROUND: [Deed; 8] = [
    Deed::Out(77, Err(6)),
    Deed::In(1, Ok((6, 102))),
    Deed::In(2, Ok((7, 103))),
    Deed::In(3, Ok((8, 100))),
    Deed::Out(200, Ok((6, 1))),
    Deed::Out(201, Ok((7, 2))),
    Deed::In(4, Ok((9, 101))),
    Deed::In(5, Ok((10, 200))),
];

/// The first ticket of a ring of four places, what is done with it, and which cells and spares are left in it.
type Row<'a> = (u64, &'a [Deed], &'a [(u64, u64)], &'a [u64]);

const ROWS: [Row<'_>; 2] = [
    (6, &GOING_ROUND, &[(8, 3), (9, 4), (10, 5)], &[201]),
    // One that nobody touches gives its spares back.
    (7, &[], &[], &[100, 101, 102, 103]),
];

#[test]
fn spares_go_round(rt: HostRuntime) {
    for (first, deeds, cells, left) in &ROWS {
        let spares = list(&rt, rt.alloc(), &[100, 101, 102, 103]);
        let (ring, mut pass) = swap_ring_of(&rt, 4, *first, spares, rt.alloc());
        has_places(&rt, &ring, 4);
        goes_on(&rt, &ring, &mut pass, deeds);
        leaves(&rt, ring, pass, cells, left);
    }
}

/// With what lies in the hand a push or a pop is made, which gets this ticket, if any, and leaves this in the hand.
type Handed = (bool, Option<u64>, u64);

fn hands(
    rt: &impl Abort,
    ring: &SwapRing<u64>,
    pass: &mut SwapPass<u64>,
    hand: &mut u64,
    handed: Handed,
)
    requires { IsPassOf ring.now.ring pass.old }
    ensures { IsPassOf ring.now.ring pass.new }
{
    let (is_push, ticket, left) = handed;
    let told = if is_push {
        ring.push_swap_from(pass, hand).ok()
    } else {
        ring.pop_swap_into(pass, hand).ok()
    };
    assert!(rt; (told, *hand) == (ticket, left));
}

const HANDED: [Handed; 5] = [
    (false, None, 7),
    (true, Some(5), 101),
    (true, Some(6), 100),
    (true, None, 100),
    (false, Some(5), 7),
];

fn hand_each(rt: &impl Abort, ring: &SwapRing<u64>, pass: &mut SwapPass<u64>)
    requires { IsPassOf ring.now.ring pass.old }
    ensures { IsPassOf ring.now.ring pass.new }
{
    let mut hand = 7;
    for handed in HANDED {
        hands(rt, ring, pass, &mut hand, handed);
    }
}

#[test]
fn a_hand_is_swapped(rt: HostRuntime) {
    let spares = list(&rt, rt.alloc(), &[100, 101]);
    let (ring, mut pass) = swap_ring_of(&rt, 2, 5, spares, rt.alloc());
    hand_each(&rt, &ring, &mut pass);
    leaves(&rt, ring, pass, &[(6, 101)], &[100]);
}

// Numbers of one digit.
#[derive(Clone, Copy, Drop)]
struct Small;

impl Limit<u64> for Small {
    ghost use Rattle.std.specs.Prelude.{◌<◌};

    ghost admits = { λ limit x. x < 10 };
}

// What is brought keeps to the limit, and so do the spare and the value that are got for it.
fn through(
    ring: &SwapRing<u64, u64, Whole, Small>,
    pass: &mut SwapPass<u64>,
    value: u64,
) -> Option<(u64, u64)>
    requires ring { IsPassOf ring.now.ring pass.old }
    requires small { value < 10 }
    ensures ring { IsPassOf ring.now.ring pass.new }
    ensures small { IfSome result (λ r. (r.0 < 10) × (r.1 < 10)) }
{
    let (_, spare) = ring.push_swap(pass, value).ok()?;
    let (_, out) = ring.pop_swap(pass, spare).ok()?;
    Some((spare, out))
}

// A number goes through the ring, and is got with this spare.
fn goes_through(
    rt: &impl Abort,
    ring: &SwapRing<u64, u64, Whole, Small>,
    pass: &mut SwapPass<u64>,
    value: u64,
    spare: u64,
)
    requires ring { IsPassOf ring.now.ring pass.old }
    requires small { value < 10 }
    ensures { IsPassOf ring.now.ring pass.new }
{
    assert!(rt; through(ring, pass, value) == Some((spare, value)));
}

#[test]
fn a_swap_ring_of_small_numbers(rt: HostRuntime) {
    let Ok(spares) = vec![in rt.alloc(); 1, 2] else {
        panic!(rt; "out of memory")
    };
    let Ok((ring, mut pass)) = SwapRing::limited(rt.alloc(), 2, 0, spares, Small) else {
        panic!(rt; "out of memory")
    };
    goes_through(&rt, &ring, &mut pass, 9, 1);
    goes_through(&rt, &ring, &mut pass, 3, 2);
}
