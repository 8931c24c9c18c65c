//! The rows of the comparison.
use crate::changes::LinkRow;
use crate::counted_idle::CountedWork;
use crate::counted_idle::CountedWork::{
    Exchange, Flush, FlushAgain, Load, Nested, Pin, PinnedRead, Place, Read, ReadOwn, Repin,
    Replace, Replace64, ReplaceCas, ReplaceStore,
};
use crate::deferrals::DeferRow;
use crate::looks::LookRow;
use crate::rows::RowWork::{Counted, Link, Look};

/// What a turn of a row does.
#[derive(Clone, Copy)]
pub enum RowWork {
    /// Work of participants on a pointer whose values are read by counts.
    Counted(CountedWork),
    /// Deferrals of boxed functions.
    Defer(DeferRow),
    /// Pushes to a stack whose values are taken out, and pops.
    CountedStack,
    /// Registers a participant, and releases it.
    Register,
    /// Pins of a session, and looks at values that are lent.
    Look(LookRow),
    /// Changes of values that are lent.
    Link(LinkRow),
}

/// A row is a line here, with its name, its work and how many participants a counted row's collector has, and the same
/// work in `beside/src`.
pub const ROWS: [(&str, RowWork, u32); 38] = [
    ("pin_unpin", Counted(Pin), 4),
    ("pin_unpin_64_idle", Counted(Pin), 64),
    ("pin_unpin_nested", Counted(Nested), 4),
    ("repin", Counted(Repin), 4),
    ("flush_empty_1_registered", Counted(FlushAgain), 1),
    ("flush_empty_16_registered", Counted(FlushAgain), 16),
    ("flush_empty_64_registered", Counted(FlushAgain), 64),
    ("flush_empty_1024_registered", Counted(FlushAgain), 1024),
    ("pin_flush_empty_1_registered", Counted(Flush), 1),
    ("pin_flush_empty_16_registered", Counted(Flush), 16),
    ("pin_flush_empty_64_registered", Counted(Flush), 64),
    ("pin_flush_empty_1024_registered", Counted(Flush), 1024),
    (
        "defer_made_64_a_guard_flush",
        RowWork::Defer(DeferRow::Together),
        4,
    ),
    (
        "defer_made_pin_each_flush_64",
        RowWork::Defer(DeferRow::Apart),
        4,
    ),
    ("load_one_pointer", Counted(Load), 4),
    ("load_deref_one_cell", Counted(Read), 4),
    ("load_deref_own_cell", Counted(ReadOwn), 4),
    ("pin_load_deref_one_cell", Counted(PinnedRead), 4),
    ("load_get_one_cell", Look(LookRow::Get), 0),
    ("pin_renew_look_lending", Look(LookRow::RenewGet), 0),
    ("list_100_contains", Look(LookRow::List), 0),
    ("map_100_contains", Look(LookRow::Map), 0),
    ("pin_unpin_lending", Look(LookRow::Pin), 0),
    ("cas_shared_success", Counted(Exchange), 4),
    ("owned_atomic_owned", Counted(Place), 4),
    ("owned_atomic_owned_lending", Link(LinkRow::Own), 0),
    ("replace_swap", Counted(Replace), 4),
    ("replace_cas", Counted(ReplaceCas), 4),
    ("replace_store", Counted(ReplaceStore), 4),
    ("replace_swap_64_a_guard_flush", Counted(Replace64), 4),
    ("replace_swap_lending", Link(LinkRow::Replace), 0),
    (
        "replace_swap_64_a_guard_flush_lending",
        Link(LinkRow::ReplaceTogether),
        0,
    ),
    ("treiber_push_pop", RowWork::CountedStack, 4),
    ("treiber_push_pop_lending", Link(LinkRow::Stack), 0),
    ("treiber_push_pop_renewed", Link(LinkRow::RenewedStack), 0),
    ("queue_push_pop_lending", Link(LinkRow::Queue), 0),
    ("queue_push_pop_renewed", Link(LinkRow::RenewedQueue), 0),
    ("register_drop", RowWork::Register, 4),
];
