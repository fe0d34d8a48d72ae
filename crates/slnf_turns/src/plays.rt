//! What each step on the table tells. These types are for the proofs alone.
ghost use Rattle.slnf_turns.specs.Views.{after_split, split_off, after_join, spent_view};
ghost use Rattle.slnf_turns.specs.Steps.{drew, looked, opened, wrote, raised, learned};

use crate::chronicles::Chronicle;
use crate::views::View;
use atomic_table::{Join, Play, Split};

pub struct Draw;

impl<B> Play<Option<B>, View> for Draw {
    ghost then = { drew };
}

pub struct Look;

impl<B> Play<Option<B>, View> for Look {
    ghost then = { looked };
}

pub struct Enter;

impl<B: Chronicle> Play<Option<B>, View> for Enter {
    ghost then = { opened B.lines B.place B.places };
}

pub struct Note;

impl<B: Chronicle> Play<Option<B>, View> for Note {
    ghost then = { wrote B.lines };
}

pub struct Raise;

impl<B> Play<Option<B>, View> for Raise {
    ghost then = { raised };
}

pub struct Learn;

impl<B> Play<Option<B>, View> for Learn {
    ghost then = { learned };
}

pub struct Cut;

impl Split<View> for Cut {
    ghost left = { after_split };

    ghost right = { split_off };
}

pub struct Glue;

impl Join<View> for Glue {
    ghost both = { after_join };

    ghost spent = { spent_view };
}
