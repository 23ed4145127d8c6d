// Where the barriers of a line stand.
ghost use Rattle.std.specs.Prelude.{◌≡◌, ◌<◌, ◌≤◌, ℕ, List, length, slice_index};
ghost use Rattle.line_model.specs.declared.line.Item.{Item};
ghost use Rattle.line_model.specs.declared.line.Item.TheVariants.{Bar};
ghost use Rattle.line_model.specs.Reductions.{mask_at};
ghost use Rattle.line_model.specs.Streams.{masks};
ghost use Rattle.time_interval.specs.Gaps.{ArePlaces, AreFirstPlaces};
ghost use Rattle.time_interval.specs.Places.{place_of_bar};

use bm_base::{MOST_MASKS, Mask};
use line_model::Item;

/// How many barriers a line has, and their places.
#[derive(Clone, Copy)]
pub(crate) struct Places {
    bars: u8,
    places: [usize; 128],
}

/// No places.
fn no_places() -> [usize; 128]
    ensures { length result ≡ 128 }
{
    [0; 128]
}

/// The mask of an item, empty where it is no barrier.
fn mask_there(item: Item) -> Mask
    ensures { (mask : ℕ) → item ≡ Bar mask → result ≡ mask }
{
    match item {
        Item::Bar { mask } => mask,
        Item::Run { .. } => Mask::empty(),
    }
}

impl Places {
    /// The places of the barriers among the items.
    pub(crate) fn of(items: &[Item]) -> Places
        requires { length (masks items.now) ≤ MOST_MASKS }
        ensures { ArePlaces items.now result }
    {
        let mut bars: u8 = 0;
        let mut places = no_places();
        for (place, item) in items.iter().enumerate() {
            if let Item::Bar { .. } = *item {
                places[bars as usize] = place;
                bars += 1;
            }
        }
        Places { bars, places }
    }

    /// How many barriers.
    pub(crate) fn bars(&self) -> u8
        ensures { (line : List Item) → ArePlaces line self.now → result ≡ length (masks line) }
    {
        self.bars
    }

    /// The place of a barrier.
    pub(crate) fn at(&self, index: u8) -> usize
        ensures { (line : List Item) → ArePlaces line self.now → index < length (masks line) → result ≡ place_of_bar index line }
    {
        if (index as usize) < MOST_MASKS {
            self.places[index as usize]
        } else {
            0
        }
    }

    /// The mask of a barrier of the items, empty where there is none.
    pub(crate) fn mask(&self, items: &[Item], index: u8) -> Mask
        requires places { ArePlaces items.now self.now }
        requires few { length (masks items.now) ≤ MOST_MASKS }
        ensures { result ≡ mask_at items.now index }
    {
        if index >= self.bars {
            return Mask::empty();
        }
        let place = self.at(index);
        prove!(place < items.len());
        mask_there(items[place])
    }
}
