// The rows of a branching diagram.
ghost use Rattle.std.specs.Prelude.{◌≡◌, ◌≤◌};
ghost use Rattle.message.specs.RowTests.{is_required};
ghost use Rattle.message.specs.Walk.{depth};

// A plain row is a segment; a trigger row is the trigger segment of a segment group, which it opens.
#[derive(Clone, Copy, PartialEq, Eq, Debug, Default, Drop)]
pub enum Kind {
    Trigger,
    #[default]
    Plain,
}

// Whether a row, or the group of a trigger row, may be left out.
#[derive(Clone, Copy, PartialEq, Eq, Debug, Default, Drop)]
pub enum Need {
    #[default]
    Optional,
    Required,
}

// A row. Need and limit of a trigger row are its group's.
#[derive(Clone, Copy, Default, Drop)]
pub struct Row {
    // always three letters: a slice would be longer to say
    pub tag: [u8; 3],
    pub level: u8,
    pub kind: Kind,
    pub need: Need,
    pub limit: u32,
}

impl Row {
    // How deep it stands as a part of its surroundings.
    pub(crate) fn depth(self) -> usize
        ensures value { result ≡ depth self }
        ensures small { result ≤ 256 }
    {
        match self.kind {
            Kind::Trigger => usize::from(self.level),
            Kind::Plain => usize::from(self.level) + 1,
        }
    }

    // Whether it must come.
    pub(crate) fn is_required(self) -> bool
        ensures { result ≡ is_required self.need }
    {
        self.need == Need::Required
    }
}
