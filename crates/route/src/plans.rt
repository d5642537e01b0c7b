// What a caller asks for, in plain numbers: the sides of a mesh and its rule. Every call takes a plan
// as it comes, and refuses what is not served before it looks at anything else.
ghost use Rattle.std.specs.Prelude.{◌≡◌, IfOk};
ghost use Rattle.route.specs.Mesh.{ruled};
ghost use Rattle.route.specs.Numbers.{rule_of, published};
ghost use Rattle.route.specs.Served.{off_side, bad_mesh, bad_list, refusal_of};
ghost use Rattle.route.specs.Coded.{meant};

use crate::meshes::{Mesh, mesh_of};
use crate::numberings::Numbering;
use crate::refusals::Refusal;
use crate::rules::Rule;

/// The columns and rows of a mesh, and the number of its rule: any numbers.
#[repr(C)]
#[derive(Clone, Copy, Debug, PartialEq, Eq)]
pub struct Plan {
    pub columns: u8,
    pub rows: u8,
    pub rule: u8,
}

// Is a side too short or too long?
fn is_off_side(length: u8) -> bool
    ensures { result ≡ off_side length }
{
    !(2..=16).contains(&length)
}

impl Plan {
    /// The rule, where sides and rule are served.
    pub fn rule(self) -> Result<Rule, Refusal>
        ensures refusal { refusal_of result ≡ bad_mesh self.columns self.rows self.rule }
        ensures rule { IfOk result (λ k. published k ≡ rule_of self.rule) }
    {
        if is_off_side(self.columns) | is_off_side(self.rows) {
            return Err(Refusal::BadSide);
        }
        Rule::try_from(self.rule).map_err(|_| Refusal::BadRule)
    }

    /// The mesh, where sides and rule are served.
    pub fn mesh(self) -> Result<Mesh, Refusal>
        ensures refusal { refusal_of result ≡ bad_mesh self.columns self.rows self.rule }
        ensures mesh { IfOk result (λ m. meant m ≡ ruled (rule_of self.rule) self.columns self.rows 0) }
    {
        let rule = self.rule()?;
        Ok(mesh_of(self.columns, self.rows, rule))
    }

    /// What is numbered, where a list of so many words is lent for a mesh that is served.
    pub fn numbering(self, words: usize) -> Result<Numbering, Refusal>
        ensures refusal { refusal_of result ≡ bad_list self.columns self.rows self.rule words }
        ensures mesh { IfOk result (λ g. meant g.mesh ≡ ruled (rule_of self.rule) self.columns self.rows 0) }
        ensures rule { IfOk result (λ g. published g.rule ≡ rule_of self.rule) }
    {
        let rule = self.rule()?;
        let mesh = mesh_of(self.columns, self.rows, rule);
        if words != mesh.channels() {
            return Err(Refusal::BadSize);
        }
        Ok(Numbering { mesh, rule })
    }
}
