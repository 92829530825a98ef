//! An ordered map from short texts to short texts, of a greatest number of pairs.
//!
//! ```rust
//! let (Some(k), Some(v)) = (Short::read(b"door"), Short::read(b"open")) else {
//!     return Err("no text".into());
//! };
//! let mut map = Map::make(alloc, 4)?;
//! assert!(rt; map.apply(MapOp::Put { k, v }) == MapReply::New);
//! assert!(rt; map.ask(MapQuery::Count) == MapReply::Count(1));
//! ```
//!
//! The test `map` of `tests_uses` runs this.
#![tactic(auto)]

mod laws;
mod map;
mod operation;

pub use laws::map_laws;
pub use map::Map;
pub use operation::{MapOp, MapQuery, MapReply};
