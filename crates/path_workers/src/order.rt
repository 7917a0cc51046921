//! Whether the places of a pass's receipts rise.

ghost use Rattle.std.specs.Prelude.{◌≡◌, ◌+◌, ◌<◌, ◌≤◌, ◌^◌, true, None, IfSome};

/// Whether the places of receipts rise in the order of the receipts, and if so the end that they are all below.
#[derive(Clone, Copy)]
pub struct Order {
    pub rises: bool,
    pub end: u64,
}

impl Order {
    /// The order of no receipts.
    pub fn new() -> Order
        ensures { (result.rises ≡ true) × (result.end ≡ 0) }
    {
        Order {
            rises: true,
            end: 0,
        }
    }

    /// The order after a further receipt at this place, if there is one.
    pub fn then(self, place: Option<u64>) -> Order
        requires { IfSome place (λ p. p < 2 ^ 63) }
        ensures none { place ≡ None → (result.rises ≡ self.rises) × (result.end ≡ self.end) }
        ensures end { IfSome place (λ p. result.end ≡ p + 1) }
        ensures rises { IfSome place (λ p. result.rises ≡ true → (self.rises ≡ true) × (self.end ≤ p)) }
    {
        match place {
            Some(place) => Order {
                rises: self.rises && self.end <= place,
                end: place + 1,
            },
            None => self,
        }
    }
}
