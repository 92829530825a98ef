//! What the logs of a closed object recover to.
use onll_log::decode;
use onll_merge::recover;
use onll_model::Node;
use onll_pmem::MemPmem;
use onll_shared::Closed;
use std::alloc::Global;

/// The nodes that the devices of a closed object recover to, each as a crash may leave it; none where they give no nodes.
pub fn recovered(alloc: Global, closed: &Closed<MemPmem>, keep: u64) -> Option<Vec<Node>> {
    let mut images = Vec::new(alloc);
    let mut heads = Vec::new(alloc);
    for log in closed.logs.iter() {
        let Ok(image) = log.device().image(alloc, keep) else {
            return None;
        };
        let Ok(decoded) = decode(alloc, &image) else {
            return None;
        };
        let Ok(()) = images.push(decoded) else {
            return None;
        };
        let Ok(()) = heads.push(log.head()) else {
            return None;
        };
    }
    if images.len() > 16 || heads.len() != images.len() {
        return None;
    }
    recover(alloc, &images, &heads).ok()
}
