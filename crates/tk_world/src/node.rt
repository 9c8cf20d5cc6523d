ghost use Rattle.std.specs.Prelude.{◌≡◌, IfOk, OnOk, OnErr};
ghost use Rattle.tk_edge.specs.HostLog.{flags};
ghost use Rattle.tk_cache.specs.Fronts.{Shows};
ghost use Rattle.tk_cache.specs.Views.{seen};
ghost use Rattle.tk_kubelet.specs.Holding.{IsMet};
ghost use Rattle.tk_kubelet.specs.Seat.{seat_of};
ghost use Rattle.tk_kubelet.specs.Turn.{TurnGives};
ghost use Rattle.tk_world.specs.Nodes.{IsNewNode, IsRestarted, NodePlays, hosts_between};

use crate::making::copy_scripts;
use std::alloc::{AllocError, Global};
use tk_kubelet::{Kubelet, KubeletTurn};
use tk_pod_cache::PodCache;
use tk_script::{PodScript, ScriptHost};
use tk_store::Store;
use tk_types::{List, Text};

/// The folder of all pods.
pub(crate) const ROOT: &str = "/work";

/// A kubelet with its cache and its host. Its life stands beside it, since it doesn't tell it.
#[derive(Drop)]
pub(crate) struct Node {
    pub(crate) cache: PodCache,
    pub(crate) life: u32,
    pub(crate) kubelet: Kubelet,
    pub(crate) host: ScriptHost,
}

impl Node {
    /// A node in its first life, whose host plays these scripts and fails in no call. The only error is want of memory.
    pub(crate) fn new(alloc: Global, number: u32, scripts: &[PodScript]) -> Result<Node, AllocError>
        ensures { IfOk result (IsNewNode scripts.now number) }
    {
        let scripts = copy_scripts(alloc, scripts)?;
        let host = ScriptHost::new(
            alloc,
            Text::from_str(alloc, ROOT)?,
            scripts,
            List::new(alloc),
        )?;
        let root = Text::from_str(alloc, ROOT)?;
        Ok(Node {
            cache: PodCache::empty(alloc),
            life: 1,
            kubelet: Kubelet::new(alloc, number, 1, root),
            host,
        })
    }

    /// The kubelet's turn. The only error is want of memory; the store is then as before.
    pub(crate) fn turn(
        &mut self,
        alloc: Global,
        store: &mut Store,
        moment: u64,
    ) -> Result<KubeletTurn, AllocError>
        requires shows { Shows (seen self.old.cache) store.old.history }
        requires met { IsMet self.old.kubelet store.old.history (flags self.old.host.log.killed) self.old.host.log.told }
        ensures cache { self.new.cache ≡ self.old.cache }
        ensures life { self.new.life ≡ self.old.life }
        ensures answer { IfOk result (TurnGives (seat_of self.old.kubelet (seen self.old.cache) moment) self.old.kubelet.held self.new.kubelet.held (hosts_between self.old self.new) store.old store.new) }
        ensures plays { OnOk result (NodePlays moment store.old.history store.new.history self.old self.new) }
        ensures err { OnErr result (store.new ≡ store.old) }
    {
        store.legal();
        self.host.follows_script();
        let turn = self
            .kubelet
            .turn(alloc, &self.cache, store, &mut self.host, moment)?;
        self.host.follows_script();
        Ok(turn)
    }

    /// The kubelet of this number begins its next life with nothing, over the same host; in its last life nothing changes.
    /// The only error is want of memory; nothing changes then.
    pub(crate) fn restart(&mut self, alloc: Global, number: u32) -> Result<(), AllocError>
        ensures ok { OnOk result (IsRestarted number self.old self.new) }
        ensures err { OnErr result (self.new ≡ self.old) }
    {
        if self.life == u32::MAX {
            return Ok(());
        }
        let root = Text::from_str(alloc, ROOT)?;
        self.life += 1;
        self.kubelet = Kubelet::new(alloc, number, self.life, root);
        self.cache = PodCache::empty(alloc);
        Ok(())
    }
}
