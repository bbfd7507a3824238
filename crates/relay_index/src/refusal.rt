//! Refusals of items.
ghost use Rattle.std.specs.Prelude.{◌↔◌, IsTrue};
ghost use Rattle.relay_index.specs.Choices.{MayRefuse};

/// Whether an index may refuse an item with this status: 400 to 599, except 404 and 409.
pub fn may_refuse(status: u16) -> bool
    ensures { IsTrue result ↔ MayRefuse status }
{
    (400..=599).contains(&status) && status != 404 && status != 409
}

// The status with which an item is refused.
#[derive(Drop)]
pub(crate) struct Refusal {
    pub(crate) status: u16,
    pub ghost may: { MayRefuse status },
}
