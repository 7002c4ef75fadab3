//! Posts: a value is brought into the bounded queue under a policy for the case that the queue is full.
//!
//! `post_now` makes a post that never waits, on any `Outlet`, and answers its `Outcome`. A `Desk` is the stepped queue of
//! `alog_core` whose actors also make posts, one atomic step at a time, and which counts what they lose; `Desk::outlet`
//! lends it to one actor for posts that are made at once. A `LossBook` counts losses for any number of threads, and a
//! `Port` posts on a running ring, a `SwapPort` on a swap ring; `post_wait` waits there under `Block`, as do `post_from` and
//! `post_hand`. The tests `overruns_the_oldest`, `posts_at_once`, `a_lone_port_posts`, `a_swap_port_posts` and
//! `a_port_posts_its_hand` of `test_queue` are examples.
//!
//! What a post is, is told by its actor's events alone: rounds that go on, and then one end. Read `specs/Post.antt` for that
//! definition, `specs/Progress.antt` for the same as a machine, `specs/Outlet.antt` for what an outlet promises,
//! `specs/Desk.antt` for the desk, and `specs/Runs.antt` for what is true of whole runs; then `policy.rt`, `progress.rt`,
//! `outlet.rt` and `posting.rt` (`post_now`), `desk.rt` with `following.rt` (what follows in a post after a step of it),
//! and `desk_outlet.rt` with `rounds.rt` (rounds whose steps are made at once); `port.rt` with `specs/Port.antt`,
//! `swap_port.rt` with `specs/SwapPort.antt`, `waiting.rt` (`post_wait`) with `room_wait.rt` and `spin.rt` (how it waits), and
//! `hand.rt` (`post_hand` and `post_hand_now`, which post the block in a port's hand).
//!
//! Of the loss book contracts see one history of adds, each with its seat; what `counts` and `close` answer are sums of
//! such histories. Read `specs/BookAdds.antt` and `specs/BookCalls.antt`, then `loss_book.rt` (a book, adds and counts),
//! `book_seat.rt`, `book_share.rt` (seats split and joined) and `book_close.rt`; below them `book_view.rt` and
//! `book_plays.rt` (the rule that each step keeps, and what it tells), with `BookRule` and `BookPlays`.
#![tactic(auto)]

mod book_close;
mod book_plays;
mod book_seat;
mod book_share;
mod book_view;
mod counts;
mod desk;
mod desk_outlet;
mod following;
mod hand;
pub mod laws;
mod loss_book;
mod outlet;
mod policy;
mod port;
mod post;
mod posting;
mod progress;
mod room_wait;
mod rounds;
mod spin;
mod swap_port;
mod waiting;

pub use alog_lane::ALL_PARTS;
pub use book_close::SeatsOut;
pub use book_seat::BookSeat;
pub use counts::Counts;
pub use desk::Desk;
pub use desk_outlet::DeskOutlet;
pub use hand::{post_hand, post_hand_now};
pub use loss_book::LossBook;
pub use outlet::{Outlet, RoomyOutlet};
pub use policy::{Outcome, Policy, Why};
pub use port::Port;
pub use post::{Post, Stepped};
pub use posting::post_now;
pub use progress::{Lost, Progress, Side};
pub use room_wait::{Pace, RoomWait};
pub use spin::spin_for;
pub use swap_port::SwapPort;
pub use waiting::{post_from, post_wait};

/// A post that does not block ends after so many rounds that went on.
pub const ROUNDS_MAX: u64 = 64;
