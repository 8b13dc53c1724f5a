// Models that are possible, impossible and spent.
use crate::search::{asked, search};
use crate::sheets::{model, sheet};
use inspect::head::Head;
use model_graph::ModelGraph;
use sheet::model::Model;

fn try_model(
    rt: &HostRuntime,
    name: &'static str,
    head: Head,
    entries: &[u8],
    limit: u32,
) -> anyhow::Result<()> {
    let bytes = sheet(head, entries);
    let model = Model::from_sheet(rt.alloc(), &bytes)?;
    search(rt, name, &ModelGraph { model }, 4, limit)?;
    asked(rt, &bytes)
}

pub fn try_models(rt: &HostRuntime) -> anyhow::Result<()> {
    // 0 and 1 step to each other, and 1 accepts
    let both = [0, 0, 1, 1, 1, 0, 1, 0];
    try_model(rt, "there and back", model(2, 1, 2), &both, 100)?;
    try_model(rt, "as many sweeps as it needs", model(2, 1, 2), &both, 3)?;
    try_model(rt, "one sweep less", model(2, 1, 2), &both, 2)?;
    // 0 to 1 to 2 to 3, and all accept
    let chain = [0, 0, 1, 1, 1, 0, 1, 2, 2, 0, 1, 3];
    try_model(rt, "no way back", model(4, 1, 15), &chain, 100)?;
    // each steps to itself, and 1 accepts
    let apart = [0, 0, 1, 0, 1, 0, 1, 1];
    try_model(rt, "another loop accepts", model(2, 1, 2), &apart, 100)?;
    // 0 steps to 1 and 2 under the last letter; 2 accepts and steps to itself under the first
    let letters = [0, 1, 3, 1, 2, 0x43, 2, 0, 1, 2];
    try_model(rt, "two letters", model(3, 2, 4), &letters, 100)
}
