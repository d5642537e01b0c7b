// The numbering call: the house number of every channel, in a lent list.
ghost use Rattle.std.specs.Prelude.{◌≡◌, ◌<◌, length};
ghost use Rattle.route.specs.Mesh.{Inside};
ghost use Rattle.route.specs.Numbers.{channels, facing, published};
ghost use Rattle.route.specs.Served.{refusal_of};
ghost use Rattle.route.specs.House.{house, house_of, numbering, numbered};
ghost use Rattle.route.specs.Coded.{meant, Roomy, Surrounds};

use crate::channels::channel_of;
use crate::directions::Direction;
use crate::frames::Frame;
use crate::meshes::Mesh;
use crate::places::Place;
use crate::plans::Plan;
use crate::refusals::Refusal;
use crate::rules::Rule;

/// What a numbering is of: a mesh that has room for every number in a word of 16 bits, and its rule.
#[derive(Clone, Copy)]
pub struct Numbering {
    pub mesh: Mesh,
    pub rule: Rule,
    pub ghost roomy: { Roomy mesh },
}

impl Numbering {
    // What lies around a place.
    fn frame_of(self, here: Place) -> Frame
        requires { Inside (meant self.mesh) here }
        ensures { Surrounds result self.mesh here }
    {
        let m = self.mesh;
        let east = m.columns - 1 - here.column.0;
        let north = m.rows - 1 - here.row.0;
        Frame {
            columns: m.columns as u16,
            rows: m.rows as u16,
            c: here.column.0 as u16,
            u: east as u16,
            r: here.row.0 as u16,
            d: north as u16,
        }
    }

    // The house number of the channel that leaves a place in a direction.
    fn house(self, here: Place, direction: Direction) -> u16
        requires { Inside (meant self.mesh) here }
        ensures { result ≡ house (published self.rule) (meant self.mesh) here (facing direction) }
    {
        self.frame_of(here).number(self.rule, direction)
    }

    // The house number of a channel, by the channel's number; 0 where there is no channel.
    fn word(self, number: u16) -> u16
        requires { number < channels self.mesh.columns self.mesh.rows }
        ensures { result ≡ house_of (published self.rule) (meant self.mesh) number }
    {
        let c = channel_of(self.mesh.columns, number);
        if !self.mesh.exists(c.start, c.way) {
            return 0;
        }
        self.house(c.start, c.way)
    }

    // Fills a list, a word for each number of a channel.
    fn fill(self, list: &mut [u16])
        requires { length list.old ≡ channels self.mesh.columns self.mesh.rows }
        ensures { list.new ≡ numbering (published self.rule) (meant self.mesh) }
    {
        for (number, word) in list.iter_mut().enumerate() {
            *word = self.word(number as u16);
        }
    }
}

/// Fills a list of 4 × columns × rows words with the house numbers, 0 where no channel exists. With a
/// refusal the list is as it was.
pub fn mesh_number(plan: Plan, list: &mut [u16]) -> Result<(), Refusal>
    ensures { record { refusal = refusal_of result; list = list.new }
        ≡ numbered plan.columns plan.rows plan.rule list.old }
{
    let numbering = plan.numbering(list.len())?;
    numbering.fill(list);
    Ok(())
}
