//! How far an exploration is, and before it begins how large its report may get, said on standard error.

use crate::largest::{LARGE, most_bytes};
use std::sync::atomic::{AtomicU64, Ordering};
use std::sync::{Condvar, Mutex, Wait};
use std::time::{Clock, Duration};
use workers::{BLOCK, Gate};

/// A gate that counts how many images are judged, of how many, and says it on standard error. Of each exploration it is one line, which
/// `watch` writes again each second, with a carriage return after it, `begun` until an exploration begins. It is ended where the next
/// exploration begins, and by `end`. Of any number of losses no number of images is known: it says how many cases are found, and is told
/// of each as of a block.
/// Where that isn't asked for nothing is said. Before the first image is judged it says how large the report may get, where that is
/// much.
#[derive(Drop)]
pub struct Progress<'r, R> {
    rt: &'r R,
    /// Whether it is asked for.
    wanted: bool,
    /// How many lines the report may have for each image; 0 where no report is printed.
    lines: u64,
    /// How many images there are; 0 until the exploration begins, and where cases are found.
    images: AtomicU64,
    /// How many images are judged or passed over, or how many cases are found.
    judged: AtomicU64,
    /// How many times the line was written.
    said: AtomicU64,
    /// Whether all is over. Who holds it may write the line.
    over: Mutex<bool>,
    /// Rung where all is over.
    bell: Condvar,
}

impl<'r, R: Clock + Eprint + Wait> Progress<'r, R> {
    /// The progress of an exploration that hasn't begun, whose report may have that many lines for each image.
    pub fn new(rt: &'r R, wanted: bool, lines: u64) -> Progress<'r, R> {
        Progress {
            rt,
            wanted,
            lines,
            images: AtomicU64::new(0),
            judged: AtomicU64::new(0),
            said: AtomicU64::new(0),
            over: Mutex::new(false),
            bell: Condvar::new(),
        }
    }

    /// Writes the line each second, until all is over.
    pub fn watch(&self) {
        let mut over = self.over.lock(self.rt);
        for _ in self.rt.forever() {
            if *over {
                return;
            }
            let (held, waited) = self
                .bell
                .wait_timeout(self.rt, over, Duration::from_secs(1));
            if waited.timed_out() && !*held {
                self.say("\r");
            }
            over = held;
        }
    }

    /// Says that all is over, and writes the line a last time and ends it, if an exploration has begun or it was written.
    pub fn end(&self) {
        let mut over = self.over.lock(self.rt);
        *over = true;
        if self.has_begun() || self.said.load(Ordering::SeqCst) > 0 {
            self.end_line();
        }
        self.bell.notify_all();
    }

    /// Ends the line, where it is asked for.
    fn end_line(&self) {
        if self.wanted {
            self.say("\n");
        }
    }

    /// Whether an exploration has begun: of images, or of cases, of which one is found.
    fn has_begun(&self) -> bool {
        self.images.load(Ordering::SeqCst) > 0 || self.judged.load(Ordering::SeqCst) > 0
    }

    /// Says how large the report of that many images may get, where that is more than a GiB.
    fn warn(&self, images: u64) {
        let most = most_bytes(images, self.lines);
        if most > LARGE {
            eprint!(self.rt;
                "note: the report may have up to {} GiB",
                most.div_ceil(LARGE)
            )
            .ok();
            eprint!(self.rt;
                "; 'crashbpf why' says why images fail in few lines, and --first reports the first alone\n"
            ).ok();
        }
    }

    /// Writes the line. Where standard error doesn't take it, it is left out.
    fn say(&self, end: &str) {
        self.said.fetch_add(1, Ordering::SeqCst);
        let judged = self.judged.load(Ordering::SeqCst);
        let images = self.images.load(Ordering::SeqCst);
        if images > 0 {
            eprint!(self.rt; "progress: {judged} of {images} images{end}").ok();
        } else if judged > 0 {
            eprint!(self.rt; "progress: {judged} cases{end}").ok();
        } else {
            eprint!(self.rt; "progress: begun{end}").ok();
        }
    }
}

/// How many images a block has, of a run of that many; or one case.
fn images_in(block: u32, images: u64) -> u64 {
    if images == 0 {
        return 1;
    }
    images.saturating_sub(BLOCK * u64::from(block)).min(BLOCK)
}

impl<R: Clock + Eprint + Wait + Sync> Gate for Progress<'_, R> {
    fn begin(&self, images: u64) {
        let over = self.over.lock(self.rt);
        if self.has_begun() {
            self.end_line();
        }
        self.warn(images);
        self.judged.store(0, Ordering::SeqCst);
        self.images.store(images, Ordering::SeqCst);
        drop(over);
    }

    fn before(&self, _worker: u8, _block: u32) {}

    fn after(&self, _worker: u8, block: u32) {
        let images = self.images.load(Ordering::SeqCst);
        self.judged
            .fetch_add(images_in(block, images), Ordering::SeqCst);
    }
}
