// The rows of the configuration: what each is called, and what it holds.
ghost use Rattle.std.specs.Prelude.{◌≡◌};
ghost use Rattle.ps_types.specs.Config as config;
ghost use Rattle.ps_config.specs.Rows.{row_of, all_rows};
ghost use Rattle.ps_config.specs.Cells.{cell_type, cell_values};

use ps_types::{Access, NodeConfig, NodeKind, NoticeKind, PublishModel, SendLast, Text, Texts};

/// A row of the configuration.
#[derive(Clone, Copy)]
pub(crate) enum Setting {
    Title,
    DeliverNotifications,
    DeliverPayloads,
    NotifyConfig,
    NotifyDelete,
    NotifyRetract,
    PersistItems,
    MaxItems,
    AccessModel,
    PublishModel,
    RosterGroupsAllowed,
    SendLastPublishedItem,
    PresenceBasedDelivery,
    NotificationType,
    MaxPayloadSize,
    NodeType,
    Collection,
}

const ROWS: [Setting; 17] = [
    Setting::Title,
    Setting::DeliverNotifications,
    Setting::DeliverPayloads,
    Setting::NotifyConfig,
    Setting::NotifyDelete,
    Setting::NotifyRetract,
    Setting::PersistItems,
    Setting::MaxItems,
    Setting::AccessModel,
    Setting::PublishModel,
    Setting::RosterGroupsAllowed,
    Setting::SendLastPublishedItem,
    Setting::PresenceBasedDelivery,
    Setting::NotificationType,
    Setting::MaxPayloadSize,
    Setting::NodeType,
    Setting::Collection,
];

/// The rows in the order of the form.
pub(crate) fn rows() -> &'static [Setting]
    ensures { result.now ≡ all_rows }
{
    &ROWS
}

/// What the field of the row is called.
#[tactic(auto, unfolding(crate::specs::Rows::row_of))]
pub(crate) fn var_of(row: Setting) -> &'static str
    ensures { result.now ≡ (row_of row).var }
{
    match row {
        Setting::Title => "pubsub#title",
        Setting::DeliverNotifications => "pubsub#deliver_notifications",
        Setting::DeliverPayloads => "pubsub#deliver_payloads",
        Setting::NotifyConfig => "pubsub#notify_config",
        Setting::NotifyDelete => "pubsub#notify_delete",
        Setting::NotifyRetract => "pubsub#notify_retract",
        Setting::PersistItems => "pubsub#persist_items",
        Setting::MaxItems => "pubsub#max_items",
        Setting::AccessModel => "pubsub#access_model",
        Setting::PublishModel => "pubsub#publish_model",
        Setting::RosterGroupsAllowed => "pubsub#roster_groups_allowed",
        Setting::SendLastPublishedItem => "pubsub#send_last_published_item",
        Setting::PresenceBasedDelivery => "pubsub#presence_based_delivery",
        Setting::NotificationType => "pubsub#notification_type",
        Setting::MaxPayloadSize => "pubsub#max_payload_size",
        Setting::NodeType => "pubsub#node_type",
        Setting::Collection => "pubsub#collection",
    }
}

/// What a row holds: a text, a boolean, a number, a word of its choices, or any number of texts.
#[derive(Clone, Copy)]
pub(crate) enum Cell<'a> {
    Line(&'a Text),
    Flag(bool),
    Number(u64),
    Word(&'static str),
    Lines(&'a Texts),
}

fn access_text(access: Access) -> &'static str
    ensures { result.now ≡ config.access_text access }
{
    match access {
        Access::Everyone => "open",
        Access::Presence => "presence",
        Access::Roster => "roster",
        Access::Authorize => "authorize",
        Access::Whitelist => "whitelist",
    }
}

fn model_text(model: PublishModel) -> &'static str
    ensures { result.now ≡ config.model_text model }
{
    match model {
        PublishModel::Publishers => "publishers",
        PublishModel::Subscribers => "subscribers",
        PublishModel::Anyone => "open",
    }
}

fn send_text(send: SendLast) -> &'static str
    ensures { result.now ≡ config.send_text send }
{
    match send {
        SendLast::Never => "never",
        SendLast::OnSub => "on_sub",
        SendLast::OnSubAndPresence => "on_sub_and_presence",
    }
}

fn notice_text(notice: NoticeKind) -> &'static str
    ensures { result.now ≡ config.notice_text notice }
{
    match notice {
        NoticeKind::Normal => "normal",
        NoticeKind::Headline => "headline",
    }
}

fn kind_text(kind: NodeKind) -> &'static str
    ensures { result.now ≡ config.kind_text kind }
{
    match kind {
        NodeKind::Leaf => "leaf",
        NodeKind::Collection => "collection",
    }
}

/// What the row holds in that configuration.
#[tactic(auto, unfolding(crate::specs::Rows::row_of))]
pub(crate) fn cell_of(config: &NodeConfig, row: Setting) -> Cell<'_>
    ensures kind { cell_type result ≡ (row_of row).type }
    ensures values { cell_values result ≡ (row_of row).values config.now }
{
    match row {
        Setting::Title => Cell::Line(&config.title),
        Setting::DeliverNotifications => Cell::Flag(config.deliver_notifications),
        Setting::DeliverPayloads => Cell::Flag(config.deliver_payloads),
        Setting::NotifyConfig => Cell::Flag(config.notify_config),
        Setting::NotifyDelete => Cell::Flag(config.notify_delete),
        Setting::NotifyRetract => Cell::Flag(config.notify_retract),
        Setting::PersistItems => Cell::Flag(config.persist_items),
        Setting::MaxItems => Cell::Number(config.max_items.get()),
        Setting::AccessModel => Cell::Word(access_text(config.access_model)),
        Setting::PublishModel => Cell::Word(model_text(config.publish_model)),
        Setting::RosterGroupsAllowed => Cell::Lines(&config.roster_groups_allowed),
        Setting::SendLastPublishedItem => Cell::Word(send_text(config.send_last_published_item)),
        Setting::PresenceBasedDelivery => Cell::Flag(config.presence_based_delivery),
        Setting::NotificationType => Cell::Word(notice_text(config.notification_type)),
        Setting::MaxPayloadSize => Cell::Number(config.max_payload_size),
        Setting::NodeType => Cell::Word(kind_text(config.node_type)),
        Setting::Collection => Cell::Line(&config.collection),
    }
}
