// How a node behaves that is made without a form.
ghost use Rattle.std.specs.Prelude.{◌≡◌, IfOk};
ghost use Rattle.ps_types.specs.Defaults as defaults;

use ps_base::Memory;
use ps_types::{
    Access, Most, NodeConfig, NodeKind, NoticeKind, PublishModel, SendLast, Text, Texts,
};
use std::alloc::Global;

fn service_config(alloc: Global) -> Result<NodeConfig, Memory>
    ensures { IfOk result (λ config. config ≡ defaults.service_config) }
{
    Ok(NodeConfig {
        title: Text::of(alloc, "")?,
        deliver_notifications: true,
        deliver_payloads: true,
        notify_config: false,
        notify_delete: false,
        notify_retract: false,
        persist_items: true,
        max_items: Most::new(10),
        access_model: Access::Everyone,
        publish_model: PublishModel::Publishers,
        roster_groups_allowed: Texts::new(alloc),
        send_last_published_item: SendLast::Never,
        presence_based_delivery: false,
        notification_type: NoticeKind::Headline,
        max_payload_size: 65536,
        node_type: NodeKind::Leaf,
        collection: Text::of(alloc, "")?,
    })
}

/// The configuration of a node that is made without a form, on an account (`pep`) or on the service host.
pub fn default_config(alloc: Global, pep: bool) -> Result<NodeConfig, Memory>
    ensures { IfOk result (λ config. config ≡ defaults.default_config pep) }
{
    let mut config = service_config(alloc)?;
    if !pep {
        return Ok(config);
    }
    config.max_items = Most::new(1);
    config.access_model = Access::Presence;
    config.send_last_published_item = SendLast::OnSubAndPresence;
    Ok(config)
}
