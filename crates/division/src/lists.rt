// What a lowering makes: gates and constraints, each in a lent buffer of its own. The bit map is no field here: lent behind one `&mut`, one field
// cannot be read while another is written (tried), so it stands beside.
use crate::constraint::ConstraintList;
use gates::list::GateList;

#[derive(Drop)]
pub struct Lists<'a, 'b> {
    pub gates: GateList<'a>,
    pub cons: ConstraintList<'b>,
}
