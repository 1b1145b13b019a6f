// What comes along with a store.
ghost use Rattle.std.specs.Prelude.{◌≡◌};

/// What comes along with a store, where it can be held beside something of the driver: `G`, which is lent, and `P`, which may change.
pub trait Note<G, P> {
    ghost ready: { G → P → Type 0 };

    ghost held: { G → Self → P → P → Type 0 };

    /// Holds it beside that. It stays as it is.
    fn hold(&mut self, with: &G, by: &mut P)
        requires { ready with.now by.old }
        ensures same { self.new ≡ self.old }
        ensures held { held with.now self.old by.old by.new };
}
