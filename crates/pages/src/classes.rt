// The size classes: the words of a block, and the blocks of a page that is cut into such.
ghost use Rattle.std.specs.Prelude.{◌≡◌, unwrap_or};
ghost use Rattle.pages.specs.Classes.{class_numbered, size_for, Ruled, Smallest};

use crate::class::Class;

// Smallest class first.
const CLASSES: [Class; 20] = [
    Class {
        size: 4,
        blocks: 64,
    },
    Class {
        size: 5,
        blocks: 51,
    },
    Class {
        size: 6,
        blocks: 42,
    },
    Class {
        size: 7,
        blocks: 36,
    },
    Class {
        size: 8,
        blocks: 32,
    },
    Class {
        size: 9,
        blocks: 28,
    },
    Class {
        size: 10,
        blocks: 25,
    },
    Class {
        size: 11,
        blocks: 23,
    },
    Class {
        size: 12,
        blocks: 21,
    },
    Class {
        size: 13,
        blocks: 19,
    },
    Class {
        size: 14,
        blocks: 18,
    },
    Class {
        size: 15,
        blocks: 17,
    },
    Class {
        size: 16,
        blocks: 16,
    },
    Class {
        size: 18,
        blocks: 14,
    },
    Class {
        size: 20,
        blocks: 12,
    },
    Class {
        size: 22,
        blocks: 11,
    },
    Class {
        size: 24,
        blocks: 10,
    },
    Class {
        size: 27,
        blocks: 9,
    },
    Class {
        size: 30,
        blocks: 8,
    },
    Class {
        size: 32,
        blocks: 8,
    },
];

// A class by its place in the table, which follows its rule.
pub fn class_at(place: usize) -> Option<Class>
    ensures class { result ≡ class_numbered place }
    ensures ruled { Ruled }
{
    CLASSES.get(place).copied()
}

// The smallest size of a block that holds so many words, if there is one.
pub fn fitting(words: usize) -> Option<usize>
    ensures size { result ≡ size_for words }
    ensures smallest { Smallest words (unwrap_or result 0) }
{
    CLASSES
        .iter()
        .find(|class| words <= class.size)
        .map(|class| class.size)
}
