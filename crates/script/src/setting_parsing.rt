//! Reads the words after the keyword of a setting.
ghost use Rattle.std.specs.Prelude.{◌≡◌};
ghost use Rattle.maildrop.specs.Text.{IsLine};
ghost use Rattle.script.specs.Commands as spec;

use crate::account_row::AccountRow;
use crate::host::Host;
use crate::keyword::SettingKeyword;
use crate::numbers::{number_between, number_of};
use crate::setting::Setting;
use crate::window::Window;
use crate::words::cut_at_space;
use ballot::{Cluster, LAST_NODE};
use maildrop::Limits;

fn cluster_of(rest: &[u8]) -> Option<Cluster>
    ensures { result ≡ spec.cluster_of rest.now }
{
    let size = number_between(1, u64::from(LAST_NODE), rest)?;
    Cluster::new(size as u8)
}

fn window_of(rest: &[u8]) -> Option<Window>
    ensures { result ≡ spec.window_of rest.now }
{
    let slots = number_of(rest)?;
    Window::new(slots)
}

fn limits_of(rest: &[u8]) -> Option<Limits>
    ensures { result ≡ spec.limits_of rest.now }
{
    let (messages, behind) = cut_at_space(rest)?;
    let (octets, ids) = cut_at_space(behind)?;
    let messages = number_of(messages)?;
    let octets = number_of(octets)?;
    let ids = number_of(ids)?;
    Limits::new(messages, octets, ids)
}

/// The setting of a keyword and what stands after its space.
pub(crate) fn setting_with(keyword: SettingKeyword, rest: &[u8]) -> Option<Setting<'_>>
    requires { IsLine rest.now }
    ensures { result ≡ spec.setting_with keyword rest.now }
{
    match keyword {
        SettingKeyword::Nodes => {
            let cluster = cluster_of(rest)?;
            Some(Setting::Nodes(cluster))
        }
        SettingKeyword::Limits => {
            let limits = limits_of(rest)?;
            Some(Setting::Limits(limits))
        }
        SettingKeyword::Window => {
            let window = window_of(rest)?;
            Some(Setting::Window(window))
        }
        SettingKeyword::Host => {
            let host = Host::new(rest)?;
            Some(Setting::Host(host))
        }
        SettingKeyword::Account => match AccountRow::new(rest) {
            Some(row) => Some(Setting::Account(row)),
            None => None,
        },
    }
}
