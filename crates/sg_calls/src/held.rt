// A value of many lists, the drop of which is one call.
ghost use Rattle.std.specs.Prelude.{◌≡◌};

/// A value while it is used. Each exit drops it by one call, where dropping its lists would be many steps of a proof.
pub struct Held<T: Drop> {
    pub value: T,
}

impl<T: Drop> Held<T> {
    /// The value itself.
    pub fn into_value(self) -> T
        ensures { result ≡ self.value }
    {
        let Held { value } = self;
        value
    }
}

impl<T: Drop> Drop for Held<T> {
    fn drop(self) {
        let Held { value: _value } = self;
    }
}
