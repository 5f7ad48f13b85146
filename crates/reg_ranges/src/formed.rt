//! What is known of a value by its type.
ghost use Rattle.std.specs.Prelude.{◌≡◌, Bool, true};
ghost use Rattle.std.specs.List.{list_all};
ghost use Rattle.reg_ranges.specs.Forms.{is_none_or};

/// A type each of whose values has a form. A caller who needs that fact calls `formed`.
pub trait Formed {
    /// Whether a value has the form.
    ghost has_form: { Self → Bool };

    /// Does nothing: what it ensures is known by the type.
    fn formed(&self)
        ensures { has_form self.now ≡ true };
}

impl<T: Formed> Formed for Option<T> {
    ghost has_form = { is_none_or T.has_form };

    fn formed(&self) {
        if let Some(value) = self {
            value.formed();
        }
    }
}

impl<T: Formed> Formed for Vec<T> {
    ghost has_form = { λ values. list_all T.has_form values.items };

    fn formed(&self) {
        for value in self {
            value.formed();
        }
    }
}
