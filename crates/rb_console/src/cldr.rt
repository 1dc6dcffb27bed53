//! The explicit parents of CLDR, which users of ICU's locales need.

/// The bundle text of `examples/parents/cldr.txt`, without its comments (CLDR: `parentLocales`,
/// `likelySubtags`). Written by `tools/cldr-parents --code`.
pub(crate) static CLDR_PARENTS: &str = "\
parents:table(nofallback) {
    parentLocales {
        az_Arab { \"az_IQ\", \"az_IR\" }
        az_Cyrl { \"az_RU\" }
        az_Latn { \"az_AZ\" }
        bs_Latn { \"bs_BA\" }
        en_001 {
            \"en_150\", \"en_AG\", \"en_AI\", \"en_AU\", \"en_BB\", \"en_BM\", \"en_BS\", \"en_BW\", \"en_BZ\",
            \"en_CC\", \"en_CK\", \"en_CM\", \"en_CX\", \"en_CY\", \"en_DG\", \"en_DM\", \"en_ER\", \"en_FJ\",
            \"en_FK\", \"en_FM\", \"en_GB\", \"en_GD\", \"en_GG\", \"en_GH\", \"en_GI\", \"en_GM\", \"en_GY\",
            \"en_HK\", \"en_IE\", \"en_IL\", \"en_IM\", \"en_IN\", \"en_IO\", \"en_JE\", \"en_JM\", \"en_KE\",
            \"en_KI\", \"en_KN\", \"en_KY\", \"en_LC\", \"en_LR\", \"en_LS\", \"en_MG\", \"en_MO\", \"en_MS\",
            \"en_MT\", \"en_MU\", \"en_MV\", \"en_MW\", \"en_MY\", \"en_NA\", \"en_NF\", \"en_NG\", \"en_NR\",
            \"en_NU\", \"en_NZ\", \"en_PG\", \"en_PK\", \"en_PN\", \"en_PW\", \"en_RW\", \"en_SB\", \"en_SC\",
            \"en_SD\", \"en_SG\", \"en_SH\", \"en_SL\", \"en_SS\", \"en_SX\", \"en_SZ\", \"en_TC\", \"en_TK\",
            \"en_TO\", \"en_TT\", \"en_TV\", \"en_TZ\", \"en_UG\", \"en_VC\", \"en_VG\", \"en_VU\", \"en_WS\",
            \"en_ZA\", \"en_ZM\", \"en_ZW\",
        }
        en_150 { \"en_AT\", \"en_BE\", \"en_CH\", \"en_DE\", \"en_DK\", \"en_FI\", \"en_NL\", \"en_SE\", \"en_SI\" }
        en_IN { \"hi_Latn\" }
        es_419 {
            \"es_AR\", \"es_BO\", \"es_BR\", \"es_BZ\", \"es_CL\", \"es_CO\", \"es_CR\", \"es_CU\", \"es_DO\",
            \"es_EC\", \"es_GT\", \"es_HN\", \"es_MX\", \"es_NI\", \"es_PA\", \"es_PE\", \"es_PR\", \"es_PY\",
            \"es_SV\", \"es_US\", \"es_UY\", \"es_VE\",
        }
        ff_Latn { \"ff_CM\", \"ff_GN\", \"ff_MR\", \"ff_SN\" }
        fr_HT { \"ht\" }
        ha_Arab { \"ha_CM\", \"ha_SD\" }
        kk_Arab { \"kk_AF\", \"kk_CN\", \"kk_IR\", \"kk_MN\" }
        ks_Arab { \"ks_IN\" }
        ku_Arab { \"ku_LB\" }
        ky_Arab { \"ky_CN\" }
        ky_Latn { \"ky_TR\" }
        man_Nkoo { \"man_GN\" }
        mn_Mong { \"mn_CN\" }
        mni_Beng { \"mni_IN\" }
        ms_Arab { \"ms_CC\" }
        no { \"nb\", \"nn\" }
        pa_Arab { \"pa_PK\" }
        pa_Guru { \"pa_IN\" }
        pt_PT {
            \"pt_AO\", \"pt_CH\", \"pt_CV\", \"pt_FR\", \"pt_GQ\", \"pt_GW\", \"pt_LU\", \"pt_MO\", \"pt_MZ\",
            \"pt_ST\", \"pt_TL\",
        }
        rif_Latn { \"rif_NL\" }
        root {
            \"arc_Nbat\", \"arc_Palm\", \"az_Arab\", \"az_Cyrl\", \"bal_Latn\", \"blt_Latn\", \"bm_Nkoo\",
            \"bs_Cyrl\", \"byn_Latn\", \"cu_Glag\", \"dje_Arab\", \"dyo_Arab\", \"en_Dsrt\", \"en_Shaw\",
            \"ff_Adlm\", \"ff_Arab\", \"grc_Linb\", \"ha_Arab\", \"iu_Latn\", \"kk_Arab\", \"ks_Deva\", \"ku_Arab\",
            \"ku_Yezi\", \"ky_Arab\", \"ky_Latn\", \"lif_Limb\", \"man_Nkoo\", \"ml_Arab\", \"mn_Mong\",
            \"mni_Mtei\", \"ms_Arab\", \"pa_Arab\", \"pal_Phlp\", \"rif_Latn\", \"sat_Deva\", \"sd_Deva\",
            \"sd_Khoj\", \"sd_Sind\", \"shi_Latn\", \"so_Arab\", \"sr_Latn\", \"sw_Arab\", \"tg_Arab\", \"ug_Cyrl\",
            \"unr_Deva\", \"uz_Arab\", \"uz_Cyrl\", \"vai_Latn\", \"wo_Arab\", \"yo_Arab\", \"yue_Hans\",
            \"zh_Bopo\", \"zh_Hanb\", \"zh_Hant\",
        }
        sat_Olck { \"sat_IN\" }
        sd_Arab { \"sd_PK\" }
        sd_Deva { \"sd_IN\" }
        shi_Tfng { \"shi_MA\" }
        sr_Cyrl { \"sr_BA\", \"sr_RS\", \"sr_XK\" }
        sr_Latn { \"sr_ME\", \"sr_RO\", \"sr_RU\", \"sr_TR\" }
        su_Latn { \"su_ID\" }
        tg_Arab { \"tg_PK\" }
        ug_Cyrl { \"ug_KZ\", \"ug_MN\" }
        unr_Deva { \"unr_NP\" }
        uz_Arab { \"uz_AF\" }
        uz_Cyrl { \"uz_CN\" }
        uz_Latn { \"uz_UZ\" }
        vai_Vaii { \"vai_LR\" }
        yue_Hans { \"yue_CN\" }
        yue_Hant { \"yue_HK\" }
        zh_Hans { \"zh_CN\", \"zh_SG\" }
        zh_Hant {
            \"zh_AU\", \"zh_BN\", \"zh_GB\", \"zh_GF\", \"zh_HK\", \"zh_ID\", \"zh_MO\", \"zh_PA\", \"zh_PF\",
            \"zh_PH\", \"zh_SR\", \"zh_TH\", \"zh_TW\", \"zh_US\", \"zh_VN\",
        }
        zh_Hant_HK { \"zh_Hant_MO\" }
    }
}
";
