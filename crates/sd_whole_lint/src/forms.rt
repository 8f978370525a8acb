//! The forms of findings: those of `sd_answer`, as the contracts say.

use sd_line::LineForm;

pub(crate) const NO_DACL: LineForm = ("no DACL", "no DACL grants everything");

pub(crate) const NULL_DACL: LineForm = ("null DACL", "a null DACL grants everything");

pub(crate) const OUT_OF_ORDER: LineForm = (
    "out of order",
    "entry {entry} {ace} is out of order behind entry {behind}",
);

pub(crate) const NO_RIGHT: LineForm = ("no right", "entry {entry} {ace} names no right");

pub(crate) const NOT_INHERITED: LineForm = (
    "not inherited",
    "entry {entry} {ace} is inherited by nothing",
);

pub(crate) const REPEATED: LineForm = ("repeated", "entry {entry} {ace} repeats entry {repeats}");

pub(crate) const NO_EFFECT: LineForm = ("no effect", "entry {entry} {ace} has no effect");

pub(crate) const LIMITS_OWNER: LineForm = ("limits owner", "entry {entry} {ace} limits the owner");
