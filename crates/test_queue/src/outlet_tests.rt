use alog_policy::{Outcome, Outlet, Policy, Why, post_now};
use alog_ring::{PopError, PushError};

// An outlet where others are always faster at each push or, where its queue is full, which refuses each pop so. It counts its calls.
#[derive(Drop)]
struct Outrun {
    is_full: bool,
    refusal: PopError,
    pushes: u64,
    pops: u64,
    discarded: u64,
}

impl Outlet for Outrun {
    type Value = u64;

    type Item = u64;

    ghost shows = { λ x. x };

    ghost is_fit = { λ o. Unit {0} };

    ghost admits = { λ o v. Unit {0} };

    ghost did = { λ o es k l p. Unit {0} };

    fn push_from(&mut self, _hand: &mut Option<u64>) -> Result<u64, PushError<()>> {
        self.pushes = self.pushes.wrapping_add(1);
        if self.is_full {
            Err(PushError::Full { value: (), next: 9 })
        } else {
            Err(PushError::Busy { value: (), seen: 8 })
        }
    }

    fn overrun_once(&mut self) -> Result<u64, PopError> {
        self.pops = self.pops.wrapping_add(1);
        Err(self.refusal)
    }

    fn count_discarded(&mut self) {
        self.discarded = self.discarded.wrapping_add(1);
    }

    ghost together = { λ a b c es fs k l m n first then. tt };

    ghost still = { λ a b v es k l none done is. tt };
}

// What a post of 7 ends with, and how many pushes, pops and discarded posts the outlet then counted.
fn post_outrun(is_full: bool, refusal: PopError, policy: Policy) -> (Outcome<u64>, [u64; 3]) {
    let mut outlet = Outrun {
        is_full,
        refusal,
        pushes: 0,
        pops: 0,
        discarded: 0,
    };
    let outcome = post_now(&mut outlet, policy, 7);
    (outcome, [outlet.pushes, outlet.pops, outlet.discarded])
}

const BEATEN: PopError = PopError::Busy { seen: 7 };

const EMPTY: PopError = PopError::Empty { next: 7 };

const IDLE: PopError = PopError::Idle { next: 9 };

// Whether the queue is full, how it refuses a pop, the policy, why the post is discarded, and how many pushes, pops and discarded posts are
// counted.
type Row = (bool, PopError, Policy, Why, [u64; 3]);

const ROWS: [Row; 6] = [
    (false, BEATEN, Policy::Block, Why::Busy, [64, 0, 1]),
    (false, BEATEN, Policy::OverrunOldest, Why::Busy, [64, 0, 1]),
    (false, BEATEN, Policy::DiscardNew, Why::Busy, [64, 0, 1]),
    (true, BEATEN, Policy::OverrunOldest, Why::Busy, [64, 64, 1]),
    // There is nothing to take.
    (true, EMPTY, Policy::OverrunOldest, Why::Stalled, [1, 1, 1]),
    (true, IDLE, Policy::OverrunOldest, Why::Stalled, [1, 1, 1]),
];

// Whether a post ends so.
fn is_right(row: &Row) -> bool {
    let (is_full, refusal, policy, why, counts) = *row;
    let wanted = Outcome::Discarded {
        value: 7,
        why,
        overran: 0,
    };
    post_outrun(is_full, refusal, policy) == (wanted, counts)
}

#[test]
fn gives_up_where_others_are_always_faster(rt: HostRuntime) {
    for row in &ROWS {
        assert!(rt; is_right(row));
    }
}
