ghost use Rattle.std.specs.Prelude.{◌≡◌};

/// Holds the service byte at 1 while it lives, and then puts the former value back.
pub struct Service<'a> {
    byte: &'a mut u8,
    former: u8,
}

impl Drop for Service<'_> {
    fn drop(self)
        ensures { self.exit.0.now ≡ self.entry.former }
    {
        *self.byte = self.former;
        let Service { byte: _, former: _ } = self;
    }
}

impl<'a> Service<'a> {
    /// Puts 1 into the byte, and keeps what it was.
    pub fn start(byte: &'a mut u8) -> Service<'a>
        ensures former { result.former ≡ byte.old }
        ensures on { result.byte.now ≡ 1 }
        ensures lent { result.byte.ghost_name ≡ byte.entry.ghost_name }
    {
        let former = *byte;
        *byte = 1;
        Service { byte, former }
    }
}
