//! The plugins by which a client logs in.

ghost use Rattle.std.specs.Prelude.{◌≡◌};
ghost use Rattle.my_auth.specs.Plugins.{challenge_plugin, plugin_name, plugin_named};

/// A plugin by which a client logs in.
#[derive(Clone, Copy, PartialEq, Eq)]
pub enum AuthPlugin {
    /// `mysql_native_password`: the password by SHA-1, with a nonce.
    Native,
    /// `caching_sha2_password`: the password by SHA-256, with a nonce.
    Caching,
    /// `mysql_clear_password`: the password as it is.
    Clear,
    /// `mysql_old_password`, which isn't safe.
    Old,
}

impl AuthPlugin {
    /// The plugin of this name, where it is one of the four.
    pub fn named(name: &[u8]) -> Option<AuthPlugin>
        ensures { result ≡ plugin_named name.now }
    {
        if name == b"mysql_native_password".as_slice() {
            return Some(AuthPlugin::Native);
        }
        if name == b"caching_sha2_password".as_slice() {
            return Some(AuthPlugin::Caching);
        }
        if name == b"mysql_clear_password".as_slice() {
            return Some(AuthPlugin::Clear);
        }
        if name == b"mysql_old_password".as_slice() {
            return Some(AuthPlugin::Old);
        }
        None
    }

    /// The plugin by which a nonce is answered: `caching_sha2_password`, or the native one.
    pub fn of_challenge(caching: bool) -> AuthPlugin
        ensures { result ≡ challenge_plugin caching }
    {
        if caching {
            AuthPlugin::Caching
        } else {
            AuthPlugin::Native
        }
    }

    /// Its name in packets.
    pub fn name(self) -> &'static [u8]
        ensures { result.now ≡ plugin_name self }
    {
        match self {
            AuthPlugin::Native => b"mysql_native_password",
            AuthPlugin::Caching => b"caching_sha2_password",
            AuthPlugin::Clear => b"mysql_clear_password",
            AuthPlugin::Old => b"mysql_old_password",
        }
    }
}
