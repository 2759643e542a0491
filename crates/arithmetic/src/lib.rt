//! Arithmetic on words: what the operators, the sign extensions and the byte orders make of them.
//!
//! RFC 9669 gives each operation of an instruction a value for every word, those at zero divisors, at
//! the least signed number and at large shift counts included. `machine` states these values once
//! (`specs/Arithmetic.antt`); this crate computes them once. No call takes memory, none refuses, and
//! none has a condition.
//!
//! | Call | Answer | RFC 9669 |
//! |---|---|---|
//! | `arithmetic(width, operator, first, second)` | the value of an operator for two words, in a width | 4.1 |
//! | `arithmetic_64(operator, first, second)` | the same in 64 bits | 4.1 |
//! | `arithmetic_32(operator, first, second)` | the same in 32 bits, of two numbers of 32 bits | 4.1 |
//! | `sign_extend(extension, word)` | the low 8, 16 or 32 bits as a signed number, in 64 or 32 bits | 4.1, MOVSX |
//! | `in_order(order, size, word)` | the low 2, 4 or 8 bytes in an order; the machine is little-endian | 4.2 |
//! | `holds(width, condition, first, second)` | whether a condition of a jump holds for two words, in a width | 4.3 |
//! | `byte_count(size)`, `bytes_of(size)` | how many bytes a load or a store moves, as a word and as a byte | 5 |
//! | `plain_size(size)`, `extension_of(size)` | of a load that extends the sign, its size and how it extends | 5 |
//! | `look_of(code)` | what the step of a record reads of the device: a load by its size, a call of a helper, or nothing | |
//!
//! A value of 32 bits has zeros in the high half of the word.
//!
//! # Place
//!
//! On `bpf_isa`, whose operators and sizes it takes, and on the definitions of `machine`. Crates
//! above compute with it: `interp` and `plain`, whose machines run an instruction, and `intervals`, which knows what
//! an instruction makes of constants; `ranges` takes the sizes of accesses. So what the verifier says of a constant is what the machine
//! computes.
//!
//! # What is proved
//!
//! Each call answers the value of the definition, for every operator and all words: `arithmetic` that of
//! `arithmetic`, `arithmetic_64` and `arithmetic_32` those of `operator_value`, and the others those of their own
//! names.
//!
//! # How it is written
//!
//! - `words`: 64 bits, the choice of a width, sign extensions and byte orders. `halves`: 32 bits.
//! - `condition`: the conditions of jumps. `sizes`: those of loads and stores, and what a record's step reads of the device.
//! - Each function is small and marked to be inlined where it is called, since a run of a checker spends
//!   its time here.
//!
//! # Example
//!
//! ```
//! use arithmetic::{arithmetic, in_order, sign_extend};
//! use bpf_isa::instr::{Operator, Order, OrderSize, SignExtension, Width};
//!
//! let less = arithmetic(Width::W32, Operator::Sub, 0, 1);            // 0xffff_ffff
//! let rest = arithmetic(Width::W64, Operator::Mod, 7, 0);            // 7: nothing is divided by 0
//! let word = sign_extend(SignExtension::From8To64, 0x80);            // 0xffff_ffff_ffff_ff80
//! let swapped = in_order(Order::Big, OrderSize::Bits16, 0x1234);     // 0x3412
//! ```
#![tactic(auto)]

mod condition;
mod halves;
mod sizes;
mod words;

pub use condition::holds;
pub use halves::arithmetic_32;
pub use sizes::{byte_count, bytes_of, extension_of, look_of, plain_size};
pub use words::{arithmetic, arithmetic_64, in_order, sign_extend};
