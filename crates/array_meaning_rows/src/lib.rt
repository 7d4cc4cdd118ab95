//! Small sources, each as its typed unit, and what they come to: the meaning of `array_meaning` worked out. Each function is a
//! group of rows: it does nothing, and its contract says how each source of the group runs. The sources stand in `specs/`, each
//! above its unit. What they come to is from the standard, and from another compiler where it has no rule of its own.
#![tactic(auto)]

mod assignments_four;
mod assignments_one;
mod assignments_three;
mod assignments_two;
mod calls_one;
mod calls_three;
mod calls_two;
mod control_one;
mod control_three;
mod control_two;
mod depth;
mod faults_four;
mod faults_one;
mod faults_three;
mod faults_two;
mod input_one;
mod input_two;
mod intrinsics_five;
mod intrinsics_four;
mod intrinsics_one;
mod intrinsics_three;
mod intrinsics_two;
mod limits;
mod masks_one;
mod masks_three;
mod masks_two;
mod order_one;
mod order_two;
mod sources_one;
mod sources_two;

pub use assignments_four::assignments_four_rows;
pub use assignments_one::assignments_one_rows;
pub use assignments_three::assignments_three_rows;
pub use assignments_two::assignments_two_rows;
pub use calls_one::calls_one_rows;
pub use calls_three::calls_three_rows;
pub use calls_two::calls_two_rows;
pub use control_one::control_one_rows;
pub use control_three::control_three_rows;
pub use control_two::control_two_rows;
pub use depth::depth_rows;
pub use faults_four::faults_four_rows;
pub use faults_one::faults_one_rows;
pub use faults_three::faults_three_rows;
pub use faults_two::faults_two_rows;
pub use input_one::input_one_rows;
pub use input_two::input_two_rows;
pub use intrinsics_five::intrinsics_five_rows;
pub use intrinsics_four::intrinsics_four_rows;
pub use intrinsics_one::intrinsics_one_rows;
pub use intrinsics_three::intrinsics_three_rows;
pub use intrinsics_two::intrinsics_two_rows;
pub use limits::limits_rows;
pub use masks_one::masks_one_rows;
pub use masks_three::masks_three_rows;
pub use masks_two::masks_two_rows;
pub use order_one::order_one_rows;
pub use order_two::order_two_rows;
pub use sources_one::sources_one_rows;
pub use sources_two::sources_two_rows;
