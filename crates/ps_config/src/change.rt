// What the values of a row make of a configuration.
ghost use Rattle.std.specs.Prelude.{◌≡◌, Some, None, option_map, IfOk, OnOk, IsErrOf};
ghost use Rattle.ps_config.specs.Rows.{row_of};

use crate::row::Setting;
use crate::values::{
    access_in, boolean_in, kind_in, model_in, most_in, name_in, notice_in, send_in, single, size_in,
};
use ps_types::{NodeConfig, Text, Texts};
use std::alloc::{AllocError, Global};

/// Why a row was not changed: its values aren't readable, or memory ran out.
#[derive(Clone, Copy)]
pub(crate) enum Unread {
    Bad,
    Memory,
}

impl From<AllocError> for Unread {
    ghost use Rattle.std.specs.Prelude.{◌≡◌};
    ghost use Rattle.ps_config.specs.declared.change.Unread.TheVariants as unread;

    ghost from_gives = { λ _ e. e ≡ unread.Memory };

    fn from(_e: AllocError) -> Unread {
        Unread::Memory
    }
}

fn put<T: Drop>(field: &mut T, value: Option<T>) -> Result<(), Unread>
    ensures ok { OnOk result (value ≡ Some field.new) }
    ensures bad { IsErrOf result Unread.Bad → value ≡ None }
    ensures memory { IsErrOf result Unread.Memory → ⊥ }
{
    match value {
        Some(value) => {
            *field = value;
            Ok(())
        }
        None => Err(Unread::Bad),
    }
}

fn put_text(alloc: Global, field: &mut Text, value: Option<&str>) -> Result<(), Unread>
    ensures ok { OnOk result (option_map (λ text. text.now) value.entry ≡ Some field.new) }
    ensures bad { IsErrOf result Unread.Bad → option_map (λ text. text.now) value.entry ≡ None }
{
    match value {
        Some(value) => {
            *field = Text::of(alloc, value)?;
            Ok(())
        }
        None => Err(Unread::Bad),
    }
}

fn copy_of(texts: &Texts) -> Result<Texts, AllocError>
    ensures { IfOk result (λ copy. copy ≡ texts.now) }
{
    texts.clone()
}

fn put_texts(field: &mut Texts, values: &Texts) -> Result<(), Unread>
    ensures ok { OnOk result (field.new ≡ values.now) }
    ensures bad { ¬ (IsErrOf result Unread.Bad) }
{
    *field = copy_of(values)?;
    Ok(())
}

/// Changes the row to those values, where they are readable.
#[tactic(auto, unfolding(crate::specs::Rows::row_of))]
pub(crate) fn change(
    alloc: Global,
    config: &mut NodeConfig,
    row: Setting,
    values: &Texts,
) -> Result<(), Unread>
    ensures ok { OnOk result ((row_of row).change config.old values.now ≡ Some config.new) }
    ensures bad { IsErrOf result Unread.Bad → (row_of row).change config.old values.now ≡ None }
{
    match row {
        Setting::Title => put_text(alloc, &mut config.title, single(values)),
        Setting::DeliverNotifications => put(&mut config.deliver_notifications, boolean_in(values)),
        Setting::DeliverPayloads => put(&mut config.deliver_payloads, boolean_in(values)),
        Setting::NotifyConfig => put(&mut config.notify_config, boolean_in(values)),
        Setting::NotifyDelete => put(&mut config.notify_delete, boolean_in(values)),
        Setting::NotifyRetract => put(&mut config.notify_retract, boolean_in(values)),
        Setting::PersistItems => put(&mut config.persist_items, boolean_in(values)),
        Setting::MaxItems => put(&mut config.max_items, most_in(values)),
        Setting::AccessModel => put(&mut config.access_model, access_in(values)),
        Setting::PublishModel => put(&mut config.publish_model, model_in(values)),
        Setting::RosterGroupsAllowed => put_texts(&mut config.roster_groups_allowed, values),
        Setting::SendLastPublishedItem => put(
            &mut config.send_last_published_item,
            send_in(values),
        ),
        Setting::PresenceBasedDelivery => put(
            &mut config.presence_based_delivery,
            boolean_in(values),
        ),
        Setting::NotificationType => put(&mut config.notification_type, notice_in(values)),
        Setting::MaxPayloadSize => put(&mut config.max_payload_size, size_in(values)),
        Setting::NodeType => put(&mut config.node_type, kind_in(values)),
        Setting::Collection => put_text(alloc, &mut config.collection, name_in(values)),
    }
}
