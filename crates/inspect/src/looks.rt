//! Looks at logs, images and programs by themselves: the answers of the commands that run no program.
//!
//! `which.rt` finds the choice of the image that is meant, by its number, or by its cut and its choice as the report prints it;
//! `laws.rt` has what holds of the texts of choices, and of the parts of a run. `any_image_command.rt` has the image of a choice of any number
//! of parts, whose text `lost_text` reads. `cuts_command.rt` tells of the cuts at which a run looks for cases: `risks.rt` finds what each
//! leaves open, and `cut_layout.rt` lays the run out in parts.
#![tactic(auto)]

mod any_image_command;
mod asm_command;
mod cut_layout;
mod cuts_command;
mod export_command;
mod image_command;
mod images_command;
mod import_command;
mod laws;
mod layout;
mod list_command;
mod log_command;
mod risks;
mod show_command;
pub(crate) mod verify_command;
mod which;

pub use any_image_command::any_image;
pub use asm_command::assemble;
pub use cut_layout::CutRange;
pub use cuts_command::survey_cuts;
pub use export_command::{Stopped, export_images, write_images};
pub use image_command::{ImageForm, image};
pub use images_command::survey;
pub use import_command::import;
pub use laws::{choices_are_short, cut_parts_are_run, parts_are_even, report_prints_choices};
pub use list_command::list;
pub use log_command::shown_log;
pub use risks::CutRisk;
pub use show_command::show;
pub use verify_command::{VerifiedReport, verify_program};
