ghost use Rattle.std.specs.Prelude.{◌≡◌};
ghost use Rattle.peer_book.specs.Marks.{has_family, with_family, marks_of_view, is_marked, marked, no_marks};

use bmp_specs::{Family, View};

// The marks of one view.
#[derive(Clone, Copy)]
pub(crate) struct FamilyMarks {
    pub(crate) v4: bool,
    pub(crate) v6: bool,
}

// The marks of a peer.
#[derive(Clone, Copy)]
pub(crate) struct Marks {
    pub(crate) in_pre: FamilyMarks,
    pub(crate) in_post: FamilyMarks,
    pub(crate) out_pre: FamilyMarks,
    pub(crate) out_post: FamilyMarks,
    pub(crate) loc: FamilyMarks,
}

impl FamilyMarks {
    const NONE: FamilyMarks = FamilyMarks {
        v4: false,
        v6: false,
    };

    fn has(self, family: Family) -> bool
        ensures { result ≡ has_family self family }
    {
        match family {
            Family::V4 => self.v4,
            Family::V6 => self.v6,
        }
    }

    fn with(self, family: Family) -> FamilyMarks
        ensures { result ≡ with_family self family }
    {
        match family {
            Family::V4 => FamilyMarks { v4: true, ..self },
            Family::V6 => FamilyMarks { v6: true, ..self },
        }
    }
}

impl Marks {
    pub(crate) fn none() -> Marks
        ensures { result ≡ no_marks }
    {
        Marks {
            in_pre: FamilyMarks::NONE,
            in_post: FamilyMarks::NONE,
            out_pre: FamilyMarks::NONE,
            out_post: FamilyMarks::NONE,
            loc: FamilyMarks::NONE,
        }
    }

    fn of_view(self, view: View) -> FamilyMarks
        ensures { result ≡ marks_of_view self view }
    {
        match view {
            View::InPre => self.in_pre,
            View::InPost => self.in_post,
            View::OutPre => self.out_pre,
            View::OutPost => self.out_post,
            View::Loc => self.loc,
        }
    }

    pub(crate) fn has(self, view: View, family: Family) -> bool
        ensures { result ≡ is_marked self view family }
    {
        self.of_view(view).has(family)
    }

    pub(crate) fn with(self, view: View, family: Family) -> Marks
        ensures { result ≡ marked self view family }
    {
        let of_view = self.of_view(view).with(family);
        match view {
            View::InPre => Marks {
                in_pre: of_view,
                ..self
            },
            View::InPost => Marks {
                in_post: of_view,
                ..self
            },
            View::OutPre => Marks {
                out_pre: of_view,
                ..self
            },
            View::OutPost => Marks {
                out_post: of_view,
                ..self
            },
            View::Loc => Marks {
                loc: of_view,
                ..self
            },
        }
    }
}
