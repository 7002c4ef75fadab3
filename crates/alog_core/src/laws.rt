//! What is true of every history, and of every state of the queue that legal events lead to.
ghost use Rattle.alog_core.specs.History.{ReachedStatesAreSound};
ghost use Rattle.alog_core.specs.Accounts.{AccountsBalance, TicketsAreIssuedInOrder, NoTicketIsHandedOutTwice};
ghost use Rattle.alog_core.specs.Accounts.{TicketsAreHandedOutOrListed, TicketsKeepTheirItems, TakesFollowTheirClaims};
ghost use Rattle.alog_core.specs.Accounts.{TicketsAreGrabbedInOrder, AnActorsTicketsRise};

/// The facts of every state that a legal history leaves, for items `T` and notes `N`: each ticket from the front to
/// the next is there, a cell is being emptied exactly if its ticket is before the front, cells stand in ticket order,
/// each is one of the last n tickets, and so there are at most n. It does nothing: its contract is the law.
pub fn reached_states_are_sound<T, N>()
    ensures { ReachedStatesAreSound T N }
{}

/// The accounts of every legal history balance: by whatever weight of tickets and items, what was claimed was taken, or
/// is listed in the cells that the history leaves. With the weight 1 it counts items, with that of one ticket or of
/// one kind of item it counts those. It does nothing: its contract is the law.
pub fn accounts_balance<T, N>()
    ensures { AccountsBalance T N }
{}

/// The tickets that a legal history issues, which are those of its claims, are in order all those from the first on, each
/// once, up to the next ticket that it leaves. It does nothing: its contract is the law.
pub fn tickets_are_issued_in_order<T, N>()
    ensures { TicketsAreIssuedInOrder T N }
{}

/// In a legal history no ticket is handed out twice: its takes are of tickets that all differ. It does nothing: its contract
/// is the law.
pub fn no_ticket_is_handed_out_twice<T, N>()
    ensures { NoTicketIsHandedOutTwice T N }
{}

/// A ticket that a legal history issued was handed out, or it is listed in the cells that the history leaves, and never
/// both; and only such a ticket was handed out or is listed. It does nothing: its contract is the law.
pub fn tickets_are_handed_out_or_listed<T, N>()
    ensures { TicketsAreHandedOutOrListed T N }
{}

/// Each ticket of a legal history keeps its item: what is handed out or listed under it is what was claimed under it, and
/// no other item was claimed under it. It does nothing: its contract is the law.
pub fn tickets_keep_their_items<T, N>()
    ensures { TicketsKeepTheirItems T N }
{}

/// In a legal history a take comes after the claim of its ticket, and hands out the item of that claim. It does nothing:
/// its contract is the law.
pub fn takes_follow_their_claims<T, N>()
    ensures { TakesFollowTheirClaims T N }
{}

/// The tickets that a legal history grabs are in order all those from the first on, each once, up to the front that it
/// leaves. It does nothing: its contract is the law.
pub fn tickets_are_grabbed_in_order<T, N>()
    ensures { TicketsAreGrabbedInOrder T N }
{}

/// In a legal history each actor grabs rising tickets. Where an actor takes in the order in which it grabs, as one does
/// that ends each pop before it begins the next, the tickets that it takes rise too. It does nothing: its contract is the law.
pub fn an_actors_tickets_rise<T, N>()
    ensures { AnActorsTicketsRise T N }
{}
