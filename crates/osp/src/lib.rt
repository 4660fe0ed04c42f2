// The C interface: thin functions over numbers and byte slices. The crate `osp_c` exports them to C. Refusals, kinds and modes are numbers
// here because C is given them so.
#![tactic(auto)]

mod casts;
mod chains;
mod given;
mod readers;
mod returned;
mod telegrams;

pub use chains::{osp_deliver, osp_lamp, osp_make, osp_record_len, osp_sense};
pub use readers::{osp_reader_end, osp_reader_next, osp_reader_position};
pub use telegrams::{
    osp_build, osp_build_command, osp_build_pwm, osp_checksum, osp_dissect, osp_dissect_answer,
    osp_read,
};
