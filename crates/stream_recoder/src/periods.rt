// The IDR periods of a stream.
ghost use Rattle.std.specs.Prelude.{◌≡◌, ◌∷◌, [], List};
ghost use Rattle.slice_rewrite.specs.Items.{Item, Slice, TheSlice};
ghost use Rattle.slice_rewrite.specs.Periods.{idr_of, is_in_range};
ghost use Rattle.stream_recoder.specs.Periods.{AreBegun};

/// The IDR periods that have begun with the slices that were read: one with each IDR picture (7.4.1.2.4).
#[derive(Clone, Copy)]
pub struct Periods {
    /// How many; the count stands still at its type's end.
    begun: u64,
    /// idr_pic_id of the last slice, where it is one of an IDR picture.
    last: Option<u32>,
}

impl Periods {
    /// None has begun.
    pub fn new() -> Periods
        ensures { AreBegun [] result }
    {
        Periods {
            begun: 0,
            last: None,
        }
    }

    /// The periods behind one slice more, which has this idr_pic_id where it is one of an IDR picture.
    pub fn behind(self, idr_pic_id: Option<u32>) -> Periods
        ensures { (before : List Item) (s : Slice) → AreBegun before self → idr_pic_id ≡ idr_of s → AreBegun (TheSlice s ∷ before) result }
    {
        let begins = match (self.last, idr_pic_id) {
            (_, None) => false,
            (None, Some(_)) => true,
            (Some(last), Some(id)) => last != id,
        };
        Periods {
            begun: self.begun.saturating_add(u64::from(begins)),
            last: idr_pic_id,
        }
    }

    /// Whether the last slice is recoded in a run of this range.
    pub fn are_in(self, range: Option<(u32, u32)>) -> bool
        ensures { (before : List Item) (s : Slice) → AreBegun (TheSlice s ∷ before) self → result ≡ is_in_range range before s }
    {
        match range {
            None => true,
            Some((first, last)) => (u64::from(first)..=u64::from(last)).contains(&self.begun),
        }
    }
}
