// What the bits of a slot add: to a sum, and to an entry.
ghost use Rattle.std.specs.Prelude.{◌≡◌, ◌+◌, ◌*◌, ◌^◌, ◌<◌};
ghost use Rattle.rows.specs.Bound.{most_bits};

// What bit 0 and bit 1 of a slot add to a sum: 20 bits at most.
#[derive(Clone, Copy)]
pub struct Added {
    pub zero: u32,
    pub one: u32,
    pub ghost small: { (zero < 2 ^ most_bits) × (one < 2 ^ most_bits) },
}

// What they add to an entry.
#[derive(Clone, Copy)]
pub(crate) struct Entries {
    pub(crate) zero: u32,
    pub(crate) one: u32,
}

impl Added {
    // The entries of both bits, where the slot is slot t of its group.
    pub(crate) fn entries(self, t: usize) -> Entries
        requires { t < 8 }
        ensures { (result.zero ≡ self.zero * 256) × (result.one ≡ self.one * 256 + 2 ^ t) }
    {
        Entries {
            zero: self.zero * 256,
            one: self.one * 256 + (1 << t),
        }
    }
}
