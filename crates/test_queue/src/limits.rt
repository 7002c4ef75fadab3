//! The limits of a queue and of a post on it, by their numbers.
ghost use Rattle.std.specs.Prelude.{◌≡◌, ◌^◌};
ghost use Rattle.alog_core.specs.declared.TheConstants.{ACTORS, PLACES_MAX, PLACES_MIN, TICKET_END};
ghost use Rattle.alog_lane.specs.declared.seat.TheConstants.{ALL_PARTS as ALL_SEATS};
ghost use Rattle.alog_policy.specs.declared.TheConstants.{ROUNDS_MAX};
ghost use Rattle.alog_ring.specs.declared.TheConstants.{ALL_PARTS};

/// The stepped queue has 64 actors; a queue has 2 to 65,536 places and issues tickets below 2^62; a ring has 2^32 parts for the passes
/// of its threads, and a lane and a loss book as many for their seats; and a post that never waits makes at most 64 rounds. It does
/// nothing: its contract is the law, and a changed constant breaks it.
pub fn limits_of_queues()
    ensures actors { ACTORS ≡ 64 }
    ensures fewest { PLACES_MIN ≡ 2 }
    ensures most { PLACES_MAX ≡ 65536 }
    ensures tickets { TICKET_END ≡ 2 ^ 62 }
    ensures passes { ALL_PARTS ≡ 2 ^ 32 }
    ensures seats { ALL_SEATS ≡ 2 ^ 32 }
    ensures rounds { ROUNDS_MAX ≡ 64 }
{}
